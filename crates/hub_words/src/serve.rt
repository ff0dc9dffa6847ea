//! The words of the server.
ghost use Rattle.std.specs.Prelude.{◌≡◌, [], ◌∷◌};
ghost use Rattle.std.specs.Option.{option_map};
ghost use Rattle.hub_main_defs.specs.Words.{serve_of, serve_with};
ghost use Rattle.hub_main_defs.specs.Words as rule;

use crate::read::has_option;
use rt_types::Text;

/// Whether the words, which are those behind the program's name, ask for the server, with whatever
/// behind: the first of them is `serve`.
pub fn asks_for_server(words: &[Text]) -> bool
    ensures { result ≡ rule.asks_for_server words.now }
{
    match words {
        [name, ..] => name.as_str() == "serve",
        [] => false,
    }
}

/// The path of the configuration where the words, which are those behind the program's name, are
/// `serve CONFIG`. Where they are any others there is none.
#[tactic(auto, unfolding(hub_main_defs::specs::Words::serve_of))]
pub fn serve_path<'a>(words: &'a [Text]) -> Option<&'a str>
    ensures { option_map (λ path. path.now) result ≡ serve_of words.entry.now }
{
    if has_option(words) {
        return None;
    }
    path_in(words)
}

/// The same of words of which none begins with a hyphen.
fn path_in<'a>(words: &'a [Text]) -> Option<&'a str>
    ensures { option_map (λ path. path.now) result ≡ serve_with words.entry.now }
{
    match words {
        [name, path] => path_behind(name.as_str(), path),
        _ => None,
    }
}

/// The path behind the name of the command.
fn path_behind<'a>(name: &str, path: &'a Text) -> Option<&'a str>
    ensures { option_map (λ path. path.now) result
        ≡ serve_with (name.now ∷ path.entry.now ∷ []) }
{
    if name == "serve" {
        Some(path.as_str())
    } else {
        None
    }
}
