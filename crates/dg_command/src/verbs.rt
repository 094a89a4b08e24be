//! The verbs of the program.
ghost use Rattle.std.specs.Prelude.{◌≡◌, bytes_eq, map, string_bytes};
ghost use Rattle.dg_command.specs.Verbs.{command_verb, verb_in, command_word};

/// The first word of a command.
#[derive(Clone, Copy, Debug, PartialEq, Eq)]
pub enum Verb {
    Replay,
    Serve,
    Format,
    Inject,
    Order,
    Boot,
    Ping,
    Dump,
    Migrate,
    Trial,
    Wrap,
    Check,
    Receive,
    Drip,
    Base,
}

impl Verb {
    /// The verb of a word.
    pub fn of(word: &str) -> Option<Verb>
        ensures { result ≡ command_verb word.now }
    {
        match word {
            "replay" => Some(Verb::Replay),
            "serve" => Some(Verb::Serve),
            "format" => Some(Verb::Format),
            "inject" => Some(Verb::Inject),
            "order" => Some(Verb::Order),
            "boot" => Some(Verb::Boot),
            "ping" => Some(Verb::Ping),
            "dump" => Some(Verb::Dump),
            "migrate" => Some(Verb::Migrate),
            "trial" => Some(Verb::Trial),
            "wrap" => Some(Verb::Wrap),
            "check" => Some(Verb::Check),
            "receive" => Some(Verb::Receive),
            "drip" => Some(Verb::Drip),
            "base" => Some(Verb::Base),
            _ => None,
        }
    }

    /// The verb of words: that of the first one.
    pub fn among(words: &[String]) -> Option<Verb>
        ensures { result ≡ verb_in (map string_bytes words.now) }
    {
        match words.first() {
            Some(word) => Verb::of(word.as_str()),
            None => None,
        }
    }

    /// The word of a verb.
    pub fn word<'a>(self) -> &'a str
        ensures { result.now ≡ command_word self }
    {
        match self {
            Verb::Replay => "replay",
            Verb::Serve => "serve",
            Verb::Format => "format",
            Verb::Inject => "inject",
            Verb::Order => "order",
            Verb::Boot => "boot",
            Verb::Ping => "ping",
            Verb::Dump => "dump",
            Verb::Migrate => "migrate",
            Verb::Trial => "trial",
            Verb::Wrap => "wrap",
            Verb::Check => "check",
            Verb::Receive => "receive",
            Verb::Drip => "drip",
            Verb::Base => "base",
        }
    }
}
