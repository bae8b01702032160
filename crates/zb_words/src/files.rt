ghost use Rattle.std.specs.Prelude.{◌≡◌, false, map, position, string_bytes, true, IfErr, IfOk};
ghost use Rattle.std.specs.List.{list_any};
ghost use Rattle.zb_words.specs.Part.{before_dashes, is_dashes};
ghost use Rattle.zb_words.specs.App.{has_fit_dashes, is_lone};

use crate::verb::Verb;

/// Refuses a `-` alone in front of `--`, and `--` where no FILEs may follow. Clap takes both.
pub fn check_dashes(verb: Verb, words: &[String]) -> Result<(), &'static str>
    ensures fit { IfOk result (λ _. has_fit_dashes verb (map string_bytes words.now) ≡ true) }
    ensures unfit { IfErr result (λ _. has_fit_dashes verb (map string_bytes words.now) ≡ false) }
{
    if has_lone(before_dashes(words)) {
        return Err("- alone is no FILE and no value");
    }
    match verb {
        Verb::Serve => Ok(()),
        Verb::Log | Verb::Gen if has_dashes(words) => Err("-- stands behind serve alone"),
        Verb::Log | Verb::Gen => Ok(()),
    }
}

// Whether a word begins with one `-`, and not with two.
fn has_lone(words: &[String]) -> bool
    ensures { result ≡ list_any (λ word. is_lone (string_bytes word)) words.now }
{
    words.iter().any(|word| is_lone(word))
}

// Whether a word is `--`.
fn has_dashes(words: &[String]) -> bool
    ensures { result ≡ list_any (λ word. is_dashes (string_bytes word)) words.now }
{
    words.iter().any(|word| word.as_str() == "--")
}

// The words before the first `--`.
fn before_dashes(words: &[String]) -> &[String]
    ensures { map string_bytes result.now ≡ before_dashes (map string_bytes words.now) }
{
    match dashes_in(words) {
        Some(place) => &words[..place],
        None => words,
    }
}

// Where the first `--` is.
fn dashes_in(words: &[String]) -> Option<usize>
    ensures { result ≡ position (λ word. is_dashes (string_bytes word)) words.now }
{
    words.iter().position(|word| word.as_str() == "--")
}

// Whether the word begins with one `-`, and not with two.
fn is_lone(word: &str) -> bool
    ensures { result ≡ is_lone word.now }
{
    word.starts_with('-') && !word.starts_with("--")
}
