//! What the help of each command says after its options: what it reads and writes, how it ends, and an example.
use crate::verbs::Verb;

const REPLAY: &str =
    "Reads a script from standard input (docs/SCRIPTS.md), and writes its report, line by line.
Chips are files, or are kept in memory where none is named. A golden line formats them.
Status 3 is a line that is none of a script, 6 a file that cannot be used, 7 a chip that is no
volume, 12 more motes than chips.
Example: deluge replay chip0 chip1 <update.script";

const SERVE: &str =
    "Reads a network profile from standard input, and writes the trace, event by event.
A profile is TOML of three keys: motes = 2, port = 17000, links = [[0, 1]].
Mote 0 has the first file, mote 1 the second, and so on. Each start of it is a short start.
Status 3 is no profile, 6 a file that cannot be used, 7 a chip that is no volume, 9 a port, 12
more motes than chips.
Example: deluge serve --turns 100000 --seed 7 chip0 chip1 <two.toml >trace";

const FORMAT: &str =
    "Reads golden as Intel HEX from standard input, and writes room ROOM. It makes the file.
What the chip held is lost. The count of commits starts anew at what --used tells: of a
chip that was used, 520223 less the room that ping tells.
Status 3 is no HEX file, 6 a file that cannot be used, 8 an image that is empty or too large.
Example: deluge format --name base --used 0 chip <base.hex";

const INJECT: &str =
    "Reads the image as Intel HEX from standard input, and writes have 0 IMAGE VERSION PAGES.
Given again, it goes on with the first page that is missing. It runs once it is ordered.
Status 3 is no HEX file, 6 a file that cannot be used, 7 no volume, 8 refused (image 0, an older
version, and so on).
Example: deluge inject --image 1 --ver 1 --name blink chip <blink.hex";

const ORDER: &str =
    "Reads nothing, and writes order 0 NUMBER IMAGE VERSION. No image but golden runs without an
order: the next start runs what it names, if the chip keeps that whole, and so do later ones.
Status 6 is a file that cannot be used, 7 no volume, 8 a number that is not larger than the one
that is kept.
Example: deluge order --number 1 --image 1 --ver 1 chip";

const BOOT: &str =
    "Reads nothing, and writes start 0 IMAGE VERSION LENGTH CRC. It counts as a short start: the
third in a row falls back to golden, and waives the order. It runs what the order names; without
an order that it can take, what ran before, or golden.
Status 6 is a file that cannot be used, 7 no volume, 13 no image to start.
Example: deluge boot chip";

const PING: &str =
    "Reads nothing, and writes what the chip keeps, one fact a line. A file that can be read and
not written is taken. An older, shorter one is lengthened to 1085440 bytes.
Status 6 is a file that cannot be used, 7 no volume.
Example: deluge ping chip";

const DUMP: &str =
    "Reads nothing, and writes the image as Intel HEX, from address 0 on. A file that can be read
and not written is taken. An older, shorter one is lengthened to 1085440 bytes.
Status 6 is a file that cannot be used, 7 no volume, 8 an image that is not kept, or not whole.
Example: deluge dump --image 1 chip >blink.hex";

const MIGRATE: &str = "Reads nothing, and writes form 2. A chip of form 2 is left as it is.
Status 6 is a file that cannot be used, 7 no volume, 8 a chip without a commit left.
Example: deluge migrate chip";

const TRIAL: &str = "Reads nothing, and writes one line at its end. Its chips are in memory.
Status 1 is want of memory, 5 an output that cannot be written.
Example: deluge trial --motes 3 --pages 3 --seed 1";

const WRAP: &str =
    "Reads a payload as Intel HEX from standard input, and writes root HEX, and behind it the image
as Intel HEX.
Status 3 is no HEX file, 8 a payload that is empty or too large.
Example: deluge wrap <blink.hex >wrapped";

const CHECK: &str =
    "Reads nothing, and writes chain LENGTH. A file that can be read and not written is taken. An
older, shorter one is lengthened to 1085440 bytes.
Status 6 is a file that cannot be used, 7 no volume, 8 an image that is not kept, not whole, or not
of the root.
Example: deluge check --image 1 --root HEX chip";

const RECEIVE: &str =
    "Reads an image that wrap made as Intel HEX from standard input, without its root line, and
writes have 0 IMAGE VERSION PAGES.
Status 3 is no HEX file, 6 a file that cannot be used, 7 no volume, 8 refused (a page that is not
of the root, and so on).
Example: deluge receive --image 1 --ver 1 --name blink --root HEX chip <chained.hex";

const DRIP: &str =
    "Reads a script of nodes from standard input (docs/SCRIPTS.md), and writes its report.
Status 3 is a line that is none of such a script.
Example: deluge drip <values.script";

const BASE: &str =
    "Reads frames and ticks from standard input, and writes the frames that the mote sends
(docs/COMMANDS.md, Base). Each start of it is a short start.
Status 4 is a line that hung up, 6 a file that cannot be used, 7 no volume, 10 an input of more than
16777216 bytes, 13 no image to start.
Example: deluge base --id 0 --step 16 --seed 1 chip <line >line";

/// What the help of a command says after its options.
pub(crate) fn notes<'a>(verb: Verb) -> &'a str {
    match verb {
        Verb::Replay => REPLAY,
        Verb::Serve => SERVE,
        Verb::Format => FORMAT,
        Verb::Inject => INJECT,
        Verb::Order => ORDER,
        Verb::Boot => BOOT,
        Verb::Ping => PING,
        Verb::Dump => DUMP,
        Verb::Migrate => MIGRATE,
        Verb::Trial => TRIAL,
        Verb::Wrap => WRAP,
        Verb::Check => CHECK,
        Verb::Receive => RECEIVE,
        Verb::Drip => DRIP,
        Verb::Base => BASE,
    }
}
