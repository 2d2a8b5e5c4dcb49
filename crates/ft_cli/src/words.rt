//! The arguments of the command line.

ghost use Rattle.std.specs.Prelude.{◌≡◌, ◌≤◌, IfSome};
ghost use Rattle.std.specs.Char.{is_ascii_digit};
ghost use Rattle.std.specs.List.{list_all};
ghost use Rattle.ft_replay.specs.Generated.{IsWithinLimits};
ghost use Rattle.ft_cli.specs.Words.{IsFormWithinLimits, form_of, form_of_word, form_with, is_numeral, number_within, settings_of, texts_of};

use ft_replay::Settings;

/// A command: what the program is asked to do.
#[derive(Clone, Copy, Debug, PartialEq, Eq)]
pub enum Form {
    /// `log`: it reads sequenced messages, one a line, and writes what one observer shows at the end.
    Log,
    /// `load`: it reads a summary and then sequenced messages, one a line, and writes what one observer
    /// shows at the end that starts from the summary.
    Load,
    /// `session`: it reads the events of a session, one a line, and writes what each of them writes.
    Session,
    /// `map`: it reads the events of a session over one shared map, one a line, and writes what each of them writes.
    Map,
    /// `gen`: it reads nothing, and writes the events of a generated session, one a line.
    Gen(Settings),
    /// `play`: it reads nothing, plays a generated session, and writes what became of its clients.
    Play(Settings),
}

/// The command that the arguments are, none where they are of no command.
pub fn read_words(words: &Vec<String>) -> Option<Form>
    ensures form { result ≡ form_of (texts_of words.now.items) }
    ensures within { IfSome result IsFormWithinLimits }
{
    match words.as_slice() {
        [word] => read_word(word.as_str()),
        [word, clients, edits, seed] => {
            let settings = read_settings(clients.as_str(), edits.as_str(), seed.as_str())?;
            form_with(word.as_str(), settings)
        }
        _ => None,
    }
}

// The command that is one argument.
fn read_word(word: &str) -> Option<Form>
    ensures form { result ≡ form_of_word word.now }
    ensures within { IfSome result IsFormWithinLimits }
{
    match word {
        "log" => Some(Form::Log),
        "load" => Some(Form::Load),
        "session" => Some(Form::Session),
        "map" => Some(Form::Map),
        _ => None,
    }
}

// The command that is one argument with settings.
fn form_with(word: &str, settings: Settings) -> Option<Form>
    requires { IsWithinLimits settings }
    ensures form { result ≡ form_with word.now settings }
    ensures within { IfSome result IsFormWithinLimits }
{
    match word {
        "gen" => Some(Form::Gen(settings)),
        "play" => Some(Form::Play(settings)),
        _ => None,
    }
}

// The settings that three arguments are.
fn read_settings(clients: &str, edits: &str, seed: &str) -> Option<Settings>
    ensures settings { result ≡ settings_of clients.now edits.now seed.now }
    ensures within { IfSome result IsWithinLimits }
{
    let clients = read_number(clients, 1, 16)?;
    let edits = read_number(edits, 0, 1_000_000)?;
    let seed = read_number(seed, 0, u64::MAX)?;
    Some(Settings {
        clients,
        edits,
        seed,
    })
}

// The number that an argument is, within these bounds.
#[tactic(auto, unfolding(crate::specs::Words::number_within))]
fn read_number(word: &str, least: u64, greatest: u64) -> Option<u64>
    ensures number { result ≡ number_within least greatest word.now }
    ensures within { IfSome result (λ number. (least ≤ number) × (number ≤ greatest)) }
{
    if !is_numeral(word.as_bytes()) {
        return None;
    }
    let Ok(number) = word.parse::<u64>() else {
        return None;
    };
    if least <= number && number <= greatest {
        Some(number)
    } else {
        None
    }
}

// Whether an argument is a number in decimal digits, without a zero in front of other digits.
fn is_numeral(word: &[u8]) -> bool
    ensures { result ≡ is_numeral word.now }
{
    match word {
        [] => false,
        [_] => are_digits(word),
        [first, ..] => are_digits(word) && *first > b'0',
    }
}

// Whether all bytes are decimal digits.
fn are_digits(word: &[u8]) -> bool
    ensures { result ≡ list_all is_ascii_digit word.now }
{
    word.iter().all(|byte| byte.is_ascii_digit())
}
