//! What holds of the definitions alone. These functions do nothing: their contracts are the laws.
ghost use Rattle.std.specs.Prelude.{◌≡◌, ◌≢◌, ℕ, true, List, [], ◌∷◌, codes, Some, None};
ghost use Rattle.clap.specs.Words.{fault_of, matches_of};
ghost use Rattle.dg_command.specs.Apps.{app_of_verb};
ghost use Rattle.dg_command.specs.Asking.{Asking, Asks, Helps, TellsVersion, Misuses, Said, asked_of, is_well_formed, said_at};
ghost use Rattle.dg_command.specs.Asking.{Replay, Serve, Format, Inject, Order, Boot, Ping, Dump, Migrate, Trial, Wrap, Check};
ghost use Rattle.dg_command.specs.Asking.{Receive, Drip, Base};
ghost use Rattle.dg_command.specs.Laws.{split_words};
ghost use Rattle.dg_command.specs.Verbs.{verb_in};
ghost use Rattle.dg_command.specs.declared.verbs.Verb.{Verb};

/// A line for each verb but those of hash-chained images, and what it asks for.
pub fn lines_are_commands()
    ensures replay { asked_of (split_words (codes "replay a b")) ≡ Asks (Replay (codes "a" ∷ codes "b" ∷ [])) }
    ensures in_memory { asked_of (split_words (codes "replay")) ≡ Asks (Replay []) }
    ensures serve { asked_of (split_words (codes "serve --turns 50 --seed 7 a")) ≡ Asks (Serve 50 7 (codes "a" ∷ [])) }
    ensures format { asked_of (split_words (codes "format --name base --used 0 f"))
        ≡ Asks (Format (codes "base") 0 2 (codes "f")) }
    ensures old_form { asked_of (split_words (codes "format --name base --used 0 --form 1 f"))
        ≡ Asks (Format (codes "base") 0 1 (codes "f")) }
    ensures last_image { asked_of (split_words (codes "order --number 1 --image 6 --ver 1 f")) ≡ Asks (Order 1 6 1 (codes "f")) }
    ensures migrate { asked_of (split_words (codes "migrate f")) ≡ Asks (Migrate (codes "f")) }
    ensures inject { asked_of (split_words (codes "inject --image 1 --ver 2 --name app f"))
        ≡ Asks (Inject 1 2 (codes "app") (codes "f")) }
    ensures order { asked_of (split_words (codes "order --number 1 --image 1 --ver 1 f")) ≡ Asks (Order 1 1 1 (codes "f")) }
    ensures boot { asked_of (split_words (codes "boot f")) ≡ Asks (Boot (codes "f")) }
    ensures ping { asked_of (split_words (codes "ping f")) ≡ Asks (Ping (codes "f")) }
    ensures dump { asked_of (split_words (codes "dump --image 3 f")) ≡ Asks (Dump 3 (codes "f")) }
    ensures trial { asked_of (split_words (codes "trial --motes 16 --pages 65 --seed 0")) ≡ Asks (Trial 16 65 0) }
    ensures drip { asked_of (split_words (codes "drip")) ≡ Asks Drip }
    ensures base { asked_of (split_words (codes "base --id 65535 --step 60000 --seed 0 f"))
        ≡ Asks (Base 65535 60000 0 (codes "f")) }
{}

/// The same for the verbs of hash-chained images.
pub fn chain_lines_are_commands()
    ensures wrap { asked_of (split_words (codes "wrap")) ≡ Asks Wrap }
    ensures check { asked_of
        (split_words (codes "check --image 0 --root 58E59bcd00000000000000000000000000000000000000000000000000000000 f"))
        ≡ Asks (Check 0 (codes "58E59bcd00000000000000000000000000000000000000000000000000000000") (codes "f")) }
    ensures receive { asked_of
        (split_words
        (codes "receive --image 1 --ver 2 --name app --root ffffffffffffffffffffffffffffffffffffffffffffffffffffffffffffffff f"))
        ≡ Asks (Receive 1 2 (codes "app") (codes "ffffffffffffffffffffffffffffffffffffffffffffffffffffffffffffffff")
        (codes "f")) }
{}

/// Options may stand in any order, and after the file, and may have their value after `=`. A number
/// may have a plus and leading zeros.
pub fn forms_of_a_command()
    ensures turned { asked_of (split_words (codes "order f --ver 1 --image 1 --number 1")) ≡ Asks (Order 1 1 1 (codes "f")) }
    ensures attached { asked_of (split_words (codes "order --number=1 --image=1 --ver=1 f")) ≡ Asks (Order 1 1 1 (codes "f")) }
    ensures plus { asked_of (split_words (codes "order --number +007 --image 1 --ver 1 f")) ≡ Asks (Order 7 1 1 (codes "f")) }

    // After `--` each word is a file, whatever it is.
    ensures any_file { (file : List ℕ) → asked_of (codes "boot" ∷ codes "--" ∷ file ∷ []) ≡ Asks (Boot file) }
{}

/// Help and the version are shown, and which comes first decides.
pub fn help_is_shown()
    ensures top { asked_of (split_words (codes "--help")) ≡ Helps }
    ensures version { asked_of (split_words (codes "-V")) ≡ TellsVersion }
    ensures verb { asked_of (split_words (codes "order --help")) ≡ Helps }
    ensures first { asked_of (split_words (codes "format --help --bogus")) ≡ Helps }
    ensures late { asked_of (split_words (codes "format --bogus --help")) ≡ Misuses }
{}

/// Words that are misused.
pub fn misused_words()
    ensures no_word { asked_of [] ≡ Misuses }
    ensures unknown { asked_of (split_words (codes "fly")) ≡ Misuses }
    ensures missing { asked_of (split_words (codes "order --number 1 --image 1 --ver 1")) ≡ Misuses }
    ensures twice { asked_of (split_words (codes "order --number 1 --number 1 --image 1 --ver 1 f")) ≡ Misuses }
    ensures too_high { asked_of (split_words (codes "dump --image 7 f")) ≡ Misuses }
    ensures no_form { asked_of (split_words (codes "format --name base --used 0 --form 3 f")) ≡ Misuses }
    ensures too_low { asked_of (split_words (codes "order --number 0 --image 1 --ver 1 f")) ≡ Misuses }
    ensures name { asked_of (split_words (codes "format --name a/b --used 0 f")) ≡ Misuses }
    ensures short_root { asked_of (split_words (codes "check --image 1 --root 58e5 f")) ≡ Misuses }
    ensures no_root { asked_of
        (split_words (codes "check --image 1 --root 58g59bcd00000000000000000000000000000000000000000000000000000000 f"))
        ≡ Misuses }
    ensures golden_received { asked_of
        (split_words
        (codes "receive --image 0 --ver 2 --name app --root ffffffffffffffffffffffffffffffffffffffffffffffffffffffffffffffff f"))
        ≡ Misuses }
    ensures long_step { asked_of (split_words (codes "base --id 0 --step 60001 --seed 0 f")) ≡ Misuses }
    ensures file_of_a_script { asked_of (split_words (codes "drip f")) ≡ Misuses }
{}

/// Words are a command exactly if the first is a verb, that verb's command of `clap` takes them, and the name of an image and the
/// root, where they are given, are valid. Its values are those that `clap` reads.
pub fn what_a_command_is()
    ensures verb { (words : List (List ℕ)) (said : Said) → verb_in words ≡ None → asked_of words ≢ Asks said }
    ensures taken { (words : List (List ℕ)) (said : Said) (verb : Verb) → verb_in words ≡ Some verb → asked_of words ≡ Asks said
        → fault_of (app_of_verb verb) words ≡ [] }
    ensures values { (words : List (List ℕ)) (said : Said) (verb : Verb) → verb_in words ≡ Some verb → asked_of words ≡ Asks said
        → said ≡ said_at verb (matches_of (app_of_verb verb) words) }
    ensures name { (words : List (List ℕ)) (said : Said) → asked_of words ≡ Asks said → is_well_formed said ≡ true }
    ensures command { (words : List (List ℕ)) (verb : Verb) → verb_in words ≡ Some verb → fault_of (app_of_verb verb) words ≡ []
        → is_well_formed (said_at verb (matches_of (app_of_verb verb) words)) ≡ true
        → asked_of words ≡ Asks (said_at verb (matches_of (app_of_verb verb) words)) }
{}
