//! Lines of scripts at each place, and what each says there. The tables were worked out from the rules of the script
//! language by hand, and again by a separate program. There are four motes.

/// Places, by the lines before them.
pub(crate) const FIRST: [&str; 0] = [];

pub(crate) const SECOND: [&str; 1] = ["motes 4"];

pub(crate) const LATER: [&str; 2] = ["motes 4", "golden base 0 hex:41"];

pub(crate) const LINKED: [&str; 3] = ["motes 4", "golden base 0 hex:41", "link 0 1"];

pub(crate) const NARROWED: [&str; 3] = ["motes 4", "golden base 0 hex:41", "narrow 2"];

pub(crate) const EVENTS: [&str; 3] = ["motes 4", "golden base 0 hex:41", "reset 0 0 0"];

pub(crate) const ROUND: [&str; 3] = ["motes 4", "golden base 0 hex:41", "round 0 1"];

pub(crate) const SWEEP: [&str; 3] = ["motes 4", "golden base 0 hex:41", "sweeps 1"];

pub(crate) const CUT: [&str; 3] = ["motes 4", "golden base 0 hex:41", "cut 1 ff"];

pub(crate) const EVENTS_CUT: [&str; 4] = [
    "motes 4",
    "golden base 0 hex:41",
    "reset 0 0 0",
    "cut 1 ff",
];

/// Texts, and what each says: the line as it is written, or the name of its fault.
pub(crate) const FIRST_LINES: [(&str, &str); 31] = [
    ("", ""),
    ("     ", ""),
    ("  # x", ""),
    ("#motes 1", ""),
    ("motes 1", "motes 1"),
    ("motes 16", "motes 16"),
    ("  motes   4   ", "motes 4"),
    ("motes 0", "mote"),
    ("motes 17", "mote"),
    ("motes 4294967295", "mote"),
    ("motes 4294967296", "number"),
    ("motes 00", "number"),
    ("motes x", "number"),
    ("motes 4\t", "number"),
    ("motes\t4", "verb"),
    ("MOTES 4", "verb"),
    ("motes", "few"),
    ("motes 4 1", "many"),
    ("\t", "verb"),
    ("rese", "verb"),
    ("golden base 0 hex:41", "place"),
    ("golden x x x", "place"),
    ("golden", "few"),
    ("image 1 1 blink hex:41", "place"),
    ("tick x x x", "place"),
    ("reset 0 1 2", "place"),
    ("inject 0 1 2 3 4", "place"),
    ("order 0 1 2 3 4 5", "place"),
    ("cut 1 ff", "place"),
    ("narrow 0", "place"),
    ("narrow", "few"),
];

pub(crate) const SECOND_LINES: [(&str, &str); 33] = [
    ("motes 4", "place"),
    ("motes 4 1", "many"),
    ("golden base 0 hex:41", "golden base 0 hex:41"),
    ("  golden   base   0   hex:41   ", "golden base 0 hex:41"),
    (
        "golden abcdefghijklmnop 520223 hex:aB",
        "golden abcdefghijklmnop 520223 hex:ab",
    ),
    ("golden A_-.9 0 hex:00ff", "golden A_-.9 0 hex:00ff"),
    ("golden a 0 gen:4:5", "golden a 0 hex:05244362"),
    ("golden a 0 gen:1:4294967295", "golden a 0 hex:ff"),
    ("golden base 0", "few"),
    ("golden base 0 hex:41 1", "many"),
    ("golden\tbase 0 hex:41", "verb"),
    ("golden abcdefghijklmnopq 0 hex:41", "name"),
    ("golden a\tb 0 hex:41", "name"),
    ("golden a/b x x", "name"),
    ("golden base 520224 hex:41", "number"),
    ("golden base 4294967296 hex:41", "number"),
    ("golden x x x", "number"),
    ("golden base 0 hex:", "content"),
    ("golden base 0 hex:4", "content"),
    ("golden base 0 hex:4g", "content"),
    ("golden base 0 HEX:41", "content"),
    ("golden base 0 41", "content"),
    ("golden base 0 gen:0:0", "content"),
    ("golden base 0 gen:1", "content"),
    ("golden base 0 gen:1:1:1", "content"),
    ("golden base 0 gen:01:1", "content"),
    ("golden base 0 gen:1:4294967296", "content"),
    ("image 1 1 blink hex:41", "place"),
    ("tick 0 1 2 1", "many"),
    ("tick 0 1 2", "place"),
    ("cut 1 ff", "place"),
    ("narrow 0", "place"),
    ("narrow x", "place"),
];

pub(crate) const LATER_LINES: [(&str, &str); 70] = [
    ("image 1 1 blink hex:41", "image 1 1 blink hex:41"),
    (
        "  image   6   4294967295   a   hex:   ",
        "image 6 4294967295 a hex:",
    ),
    ("image 1 1 a gen:1048576:0", "big"),
    ("image 1 1 blink", "few"),
    ("image 1 1 blink hex:41 1", "many"),
    ("IMAGE 1 1 blink hex:41", "verb"),
    ("image 0 0 a/b x", "image"),
    ("image 7 1 blink hex:41", "image"),
    ("image 4294967296 1 blink hex:41", "number"),
    ("image 00 1 blink hex:41", "number"),
    ("image 1 0 a/b x", "version"),
    ("image 1 4294967296 blink hex:41", "number"),
    ("image 1 1 abcdefghijklmnopq hex:41", "name"),
    ("image 1 1 a/b x", "name"),
    ("image 1 1 blink gen:1048577:0", "content"),
    ("image 1 1 blink x", "content"),
    ("tick 0 1 2", "tick 0 1 2"),
    ("  tick   3   4294967295   0   ", "tick 3 4294967295 0"),
    ("tick 0 0 4294967295", "tick 0 0 4294967295"),
    ("tick 0 1", "few"),
    ("tick 0 1 2 1", "many"),
    ("tick 4 x x", "mote"),
    ("tick 4294967296 1 2", "number"),
    ("tick 00 1 2", "number"),
    ("tick 0 4294967296 2", "number"),
    ("tick 0 -1 2", "number"),
    ("tick 0 1 4294967296", "number"),
    ("tick 0 1 2\t", "number"),
    ("reset 3 4294967295 0", "reset 3 4294967295 0"),
    ("reset 0 0 4294967295", "reset 0 0 4294967295"),
    ("reset 0 1", "few"),
    ("reset 0 1 2 1", "many"),
    ("reset 4 1 2", "mote"),
    ("reset 0 4294967296 2", "number"),
    ("reset 0 1 00", "number"),
    ("inject 3 0 1 0 4294967295", "inject 3 0 1 0 4294967295"),
    (
        "inject 0 6 4294967295 4294967295 0",
        "inject 0 6 4294967295 4294967295 0",
    ),
    ("inject 0 1 2 3", "few"),
    ("inject 0 1 2 3 4 1", "many"),
    ("inject 4 7 0 x x", "mote"),
    ("inject 0 7 0 x x", "image"),
    ("inject 0 1 0 x x", "version"),
    ("inject 0 00 2 3 4", "number"),
    ("inject 0 1 4294967296 3 4", "number"),
    ("inject 0 1 2 4294967296 4", "number"),
    ("inject 0 1 2 3 4294967296", "number"),
    ("order 3 1 0 1 0 4294967295", "order 3 1 0 1 0 4294967295"),
    (
        "order 0 4294967295 6 4294967295 4294967295 0",
        "order 0 4294967295 6 4294967295 4294967295 0",
    ),
    ("order 0 1 2 3 4", "few"),
    ("order 0 1 2 3 4 5 1", "many"),
    ("order 4 0 7 0 x x", "mote"),
    ("order 0 0 7 0 x x", "version"),
    ("order 0 1 7 0 x x", "image"),
    ("order 0 1 2 0 x x", "version"),
    ("order 0 4294967296 2 3 4 5", "number"),
    ("order 0 1 2 4294967296 4 5", "number"),
    ("order 0 1 2 3 4294967296 5", "number"),
    ("order 0 1 2 3 4 4294967296", "number"),
    ("cut 1 00", "cut 1 00"),
    ("  cut   4294967295   FFff   ", "cut 4294967295 ffff"),
    ("cut 1", "few"),
    ("cut 1 ff 1", "many"),
    ("cut 0 x", "number"),
    ("cut 4294967296 ff", "number"),
    ("cut 01 ff", "number"),
    ("cut 1 f", "mask"),
    ("cut 1 fg", "mask"),
    ("cut 1 hex:00", "mask"),
    ("motes 4", "place"),
    ("golden base 0 hex:41", "place"),
];

pub(crate) const EVENTS_LINES: [(&str, &str); 8] = [
    ("motes 4", "place"),
    ("golden base 0 hex:41", "place"),
    ("image 1 1 blink hex:41", "image 1 1 blink hex:41"),
    ("order 0 1 2 3 4 5", "order 0 1 2 3 4 5"),
    ("cut 1 ff", "cut 1 ff"),
    ("narrow 0", "place"),
    ("narrow x", "place"),
    ("narrow 0 1", "many"),
];

pub(crate) const CUT_LINES: [(&str, &str); 20] = [
    ("  # x", ""),
    ("tick 0 1 2", "tick 0 1 2"),
    ("reset 0 1 2", "reset 0 1 2"),
    ("inject 0 1 2 3 4", "inject 0 1 2 3 4"),
    ("order 0 1 2 3 4 5", "order 0 1 2 3 4 5"),
    ("tick x x x", "number"),
    ("image 1 1 blink hex:41", "cut"),
    ("image x x x x", "cut"),
    ("image 1 1 blink", "few"),
    ("cut 1 ff", "cut"),
    ("cut x x", "cut"),
    ("cut 1 ff 1", "many"),
    ("round 0 1", "cut"),
    ("sweeps x", "cut"),
    ("motes 4", "place"),
    ("golden x x x", "place"),
    ("rese", "verb"),
    ("narrow 0", "cut"),
    ("narrow x", "cut"),
    ("narrow", "few"),
];

pub(crate) const EVENTS_CUT_LINES: [(&str, &str); 6] = [
    ("tick 0 1 2", "tick 0 1 2"),
    ("cut x x", "cut"),
    ("image x x x x", "cut"),
    ("motes x", "place"),
    ("golden x x x", "place"),
    ("narrow 0", "place"),
];

/// Links, frames that are heard, and frames from outside.
pub(crate) const RADIO_LINES: [(&str, &str); 35] = [
    ("link 2 3", "link 2 3"),
    ("  link   2   3  ", "link 2 3"),
    ("link 2", "few"),
    ("link 2 3 1", "many"),
    ("link 3 3", "mote"),
    ("link 4 3", "mote"),
    ("link 2 4", "mote"),
    ("link 2 x", "number"),
    ("link 00 3", "number"),
    ("link 0 1", "place"),
    ("link 1 0", "place"),
    ("hear 0 1 2 3", "hear 0 1 2 3"),
    ("hear 0 1 2", "few"),
    ("hear 0 1 2 3 1", "many"),
    ("hear 4 1 2 3", "mote"),
    ("hear 0 4294967296 2 3", "number"),
    ("hear 0 1 2 0", "number"),
    ("hear 0 1 2 4294967295", "hear 0 1 2 4294967295"),
    ("hear 0 1 2 4294967296", "number"),
    ("last 0 1 2 3", "last 0 1 2 3"),
    ("last 0 1 2", "few"),
    ("last 0 1 2 3 1", "many"),
    ("last 4 1 2 3", "mote"),
    ("last 0 0 2 3", "mote"),
    ("last 0 4 2 3", "mote"),
    ("last 0 1 4294967296 3", "number"),
    ("frame 0 1 2 hex:00", "frame 0 1 2 hex:00"),
    ("frame 0 1 2", "few"),
    ("frame 0 1 2 hex:00 1", "many"),
    ("frame 4 1 2 hex:00", "mote"),
    ("frame 0 1 4294967296 hex:00", "number"),
    ("frame 0 1 2 hex:", "frame 0 1 2 hex:"),
    ("frame 0 1 2 gen:65:0", "content"),
    ("frame 0 1 2 hex:a", "content"),
    (
        "frame 0 1 2 gen:64:0",
        "frame 0 1 2 hex:001f3e5d7c9bbad9f81736557493b2d1f00f2e4d6c8baac9e80726456483a2c1e0ff1e3d5c7b9ab9d8f71635547392\
          b1d0ef0e2d4c6b8aa9c8e70625446382a1",
    ),
];

/// Motes that are narrow. One of them is.
pub(crate) const NARROW_LINES: [(&str, &str); 14] = [
    ("narrow 3", "narrow 3"),
    ("  narrow   0  ", "narrow 0"),
    ("narrow", "few"),
    ("narrow 1 2", "many"),
    ("NARROW 1", "verb"),
    ("narrow 4", "mote"),
    ("narrow 4294967295", "mote"),
    ("narrow 4294967296", "number"),
    ("narrow x", "number"),
    ("narrow 00", "number"),
    ("narrow -1", "number"),
    ("narrow 2", "place"),
    ("  narrow   2  ", "place"),
    ("link 2 3", "link 2 3"),
];

/// Rounds and sweeps, and lines that are not played yet.
pub(crate) const ROUND_LINES: [(&str, &str); 17] = [
    ("round 0 1", "round 0 1"),
    ("  round   3   0  ", "round 3 0"),
    ("round 0", "few"),
    ("round 0 1 2", "many"),
    ("round 4 1", "mote"),
    ("round 0 4", "mote"),
    ("round 2 2", "mote"),
    ("round x 0", "number"),
    ("round 0 00", "number"),
    ("sweeps 1", "sweeps 1"),
    ("sweeps 1000", "sweeps 1000"),
    ("sweeps", "few"),
    ("sweeps 1 1", "many"),
    ("sweeps 0", "number"),
    ("sweeps 1001", "number"),
    ("sweeps 01", "number"),
    ("boards", "place"),
];

/// Lines after a round or a sweep.
pub(crate) const BEHIND_ROUND_LINES: [(&str, &str); 4] = [
    ("link 0 1", "place"),
    ("tick 0 1 2", "tick 0 1 2"),
    ("sweeps 1", "sweeps 1"),
    ("narrow 0", "place"),
];

/// Inputs, and what their first line says.
pub(crate) const ENDS: [(&str, &str); 8] = [
    ("motes 4", "motes 4"),
    ("motes 4\nx", "motes 4"),
    ("motes 4\r\nx", "motes 4"),
    ("\r\nx", ""),
    ("motes 4\r", "number"),
    ("motes 4\r\r\n", "number"),
    ("motes 4\rmotes 4\n", "many"),
    ("\rmotes 4\n", "verb"),
];

/// Long lines: the lines before, a prefix, a byte and how often it follows, and what the line says where that is not the
/// line itself.
pub(crate) const LONG_LINES: [(&[&str], &str, u8, usize, Option<&str>); 10] = [
    (&FIRST, "#", b'x', 299_999, Some("")),
    (&FIRST, "#", b'x', 300_000, Some("long")),
    (&SECOND, "golden a 0 hex:", b'0', 141_312, None),
    (&SECOND, "golden a 0 hex:", b'0', 141_314, Some("content")),
    (&LATER, "tick 0 1 2", b' ', 299_990, Some("tick 0 1 2")),
    (&LATER, "tick 0 1 2", b' ', 299_991, Some("long")),
    (&LATER, "cut 1 ", b'a', 4_096, None),
    (&LATER, "cut 1 ", b'a', 4_098, Some("mask")),
    (&LATER, "image 1 1 a hex:", b'0', 298_000, None),
    (&LATER, "image 1 1 a hex:", b'0', 299_984, Some("big")),
];
