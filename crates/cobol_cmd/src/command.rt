ghost use Rattle.std.specs.Prelude.{◌≡◌, ◌&&◌, nat_le};
ghost use Rattle.std.specs.Option.{option_map};
ghost use Rattle.std.specs.List.{list_all};
ghost use Rattle.cobol_cmd.specs.Commands.{is_file_name, command, command_of};

/// What a command does.
#[derive(Clone, Copy, Debug, PartialEq, Eq)]
pub enum Action {
    /// Runs one unit and prints its part of a report.
    Show,
    /// Reads a program and says whether it keeps the rules.
    Check,
}

/// A command with the name of the text that it works on.
#[derive(Clone, Copy)]
pub(crate) struct Asked<'a> {
    pub(crate) action: Action,
    pub(crate) name: &'a str,
}

fn is_plain(name: &[u8]) -> bool
    ensures { result ≡ list_all (λ byte. nat_le 33 byte && nat_le byte 126) name.now }
{
    name.iter().all(|byte| 33 <= *byte && *byte <= 126)
}

fn is_name(name: &str) -> bool
    ensures { result ≡ is_file_name name.now }
{
    0 < name.len() && name.len() <= 100 && is_plain(name.as_bytes())
}

fn action_and_name<'a>(word: &str, name: &'a str) -> Option<Asked<'a>>
    ensures { option_map (λ asked. record { action = asked.action; name = asked.name.now }) result ≡ command_of word.now name.now }
{
    if word == "show" {
        Some(Asked {
            action: Action::Show,
            name,
        })
    } else if word == "check" {
        Some(Asked {
            action: Action::Check,
            name,
        })
    } else {
        None
    }
}

/// The command that the words are.
pub(crate) fn command_of_words(words: &[String]) -> Option<Asked<'_>>
    ensures { option_map (λ asked. record { action = asked.action; name = asked.name.now }) result ≡ command words.now }
{
    match words {
        [word, name] => {
            if is_name(name.as_str()) {
                action_and_name(word.as_str(), name.as_str())
            } else {
                None
            }
        }
        _ => None,
    }
}
