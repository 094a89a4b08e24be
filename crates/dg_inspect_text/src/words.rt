//! What a command line asks for.
use dg_chain::DIGEST_SIZE;
use dg_compare::Rooted;
use dg_control::IMAGES;
use std::alloc::{AllocError, Global};

/// What is asked of the chips in files.
#[derive(Drop)]
pub enum Request<'a> {
    /// What each of these files shows.
    Show {
        files: Vec<&'a str>,
    },
    /// The numbers that may be used next on the chip in this file.
    Next {
        file: &'a str,
    },
    /// Whether the chip in this file is sound, and has this root.
    Verify {
        file: &'a str,
        rooted: Option<Rooted>,
    },
    /// How the chips in two files compare.
    Compare {
        first: &'a str,
        second: &'a str,
    },
}

/// What words ask for.
#[derive(Drop)]
pub enum Asked<'a> {
    Request { request: Request<'a>, json: bool },
    Help,
    Version,
    /// They are not a command: this word is the first that is wrong.
    Wrong(&'a str),
    /// They are not a command: a word is missing, or one too many is there.
    Count,
}

/// A command of the program.
#[derive(Clone, Copy)]
enum Verb {
    Show,
    Next,
    Verify,
    Compare,
}

/// What the next word is.
#[derive(Clone, Copy)]
enum Expected {
    Any,
    Root,
    Image,
}

/// The words after a verb.
#[derive(Drop)]
struct Arguments<'a> {
    json: bool,
    root: Option<[u8; DIGEST_SIZE]>,
    image: Option<u8>,
    files: Vec<&'a str>,
    /// The first word that is wrong.
    wrong: Option<&'a str>,
}

/// The verb that a word is.
fn verb_of(word: &str) -> Option<Verb> {
    match word {
        "show" => Some(Verb::Show),
        "next" => Some(Verb::Next),
        "verify" => Some(Verb::Verify),
        "compare" => Some(Verb::Compare),
        _ => None,
    }
}

/// A root: 64 hex digits.
fn root_of(word: &str) -> Option<[u8; DIGEST_SIZE]> {
    let mut root = [0; DIGEST_SIZE];
    hex::decode_to_slice(word, &mut root).ok()?;
    Some(root)
}

/// The number of an image: a digit.
fn image_of(word: &str) -> Option<u8> {
    let [digit] = word.as_bytes() else {
        return None;
    };
    let image = digit.checked_sub(b'0')?;
    if usize::from(image) < IMAGES {
        Some(image)
    } else {
        None
    }
}

impl<'a> Arguments<'a> {
    /// Takes a word, and answers what the next one is.
    fn take(
        &mut self,
        verb: Verb,
        expected: Expected,
        word: &'a str,
    ) -> Result<Expected, AllocError> {
        match expected {
            Expected::Any => self.take_any(verb, word),
            Expected::Root => {
                self.root = root_of(word);
                let wrong = self.root.is_none();
                self.note(wrong, word);
                Ok(Expected::Any)
            }
            Expected::Image => {
                self.image = image_of(word);
                let wrong = self.image.is_none();
                self.note(wrong, word);
                Ok(Expected::Any)
            }
        }
    }

    /// Takes an option or the name of a file.
    fn take_any(&mut self, verb: Verb, word: &'a str) -> Result<Expected, AllocError> {
        match word {
            "--json" => {
                let twice = self.json;
                self.note(twice, word);
                self.json = true;
            }
            "--root" => {
                let twice = self.root.is_some();
                self.note(twice || !matches!(verb, Verb::Verify), word);
                return Ok(Expected::Root);
            }
            "--image" => {
                let twice = self.image.is_some();
                self.note(twice || !matches!(verb, Verb::Verify), word);
                return Ok(Expected::Image);
            }
            _ => {
                self.note(word.starts_with('-'), word);
                self.files.push(word)?;
            }
        }
        Ok(Expected::Any)
    }

    /// Keeps a word that is wrong, where it is the first.
    fn note(&mut self, wrong: bool, word: &'a str) {
        if wrong && self.wrong.is_none() {
            self.wrong = Some(word);
        }
    }
}

/// The image and its root, where both are given. None where one of them is missing.
fn rooted_of(root: Option<[u8; DIGEST_SIZE]>, image: Option<u8>) -> Option<Option<Rooted>> {
    match (root, image) {
        (None, None) => Some(None),
        (Some(root), Some(image)) => Some(Some(Rooted { image, root })),
        _ => None,
    }
}

/// What a verb and the words after it ask for. None where a word is missing, or one too many is there.
fn request_of<'a>(verb: Verb, arguments: Arguments<'a>) -> Option<Request<'a>> {
    let files = arguments.files;
    match verb {
        Verb::Show => {
            if files.is_empty() {
                return None;
            }
            Some(Request::Show { files })
        }
        Verb::Next => {
            let [file] = files.as_slice() else {
                return None;
            };
            Some(Request::Next { file: *file })
        }
        Verb::Verify => {
            let rooted = rooted_of(arguments.root, arguments.image)?;
            let [file] = files.as_slice() else {
                return None;
            };
            Some(Request::Verify {
                file: *file,
                rooted,
            })
        }
        Verb::Compare => {
            let [first, second] = files.as_slice() else {
                return None;
            };
            Some(Request::Compare {
                first: *first,
                second: *second,
            })
        }
    }
}

/// What the words after a verb ask for.
fn read_arguments<'a>(
    alloc: Global,
    verb: Verb,
    words: &'a [String],
) -> Result<Asked<'a>, AllocError> {
    let mut arguments = Arguments {
        json: false,
        root: None,
        image: None,
        files: Vec::new(alloc),
        wrong: None,
    };
    let mut expected = Expected::Any;
    for word in words {
        expected = arguments.take(verb, expected, word.as_str())?;
    }
    if let Some(word) = arguments.wrong {
        return Ok(Asked::Wrong(word));
    }
    if !matches!(expected, Expected::Any) {
        return Ok(Asked::Count);
    }
    let json = arguments.json;
    match request_of(verb, arguments) {
        Some(request) => Ok(Asked::Request { request, json }),
        None => Ok(Asked::Count),
    }
}

/// What words ask for.
pub fn read_words<'a>(alloc: Global, words: &'a [String]) -> Result<Asked<'a>, AllocError> {
    let Some(first) = words.first() else {
        return Ok(Asked::Count);
    };
    match first.as_str() {
        "--help" => Ok(Asked::Help),
        "--version" => Ok(Asked::Version),
        word => match verb_of(word) {
            Some(verb) => read_arguments(alloc, verb, &words[1..]),
            None => Ok(Asked::Wrong(word)),
        },
    }
}
