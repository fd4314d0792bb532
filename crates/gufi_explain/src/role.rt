//! The part that a word plays in a command.
ghost use Rattle.std.specs.Prelude.{◌≡◌, ◌<◌, ◌^◌, option_map};
ghost use Rattle.std.specs.List.{slice_get};
ghost use Rattle.gufi_words.specs.WordTexts.{texts};
ghost use Rattle.gufi_words.specs.WordOptions.{before_equals, has_equals, is_positional};
ghost use Rattle.gufi_explain.specs.Roles.{after_choice, after_word, role_from, role_with, role_at};

use crate::rules::{Entry, takes_value};
use crate::shown::{front, word_at};
use gufi_base::behind;

/// What a word is, behind the name of a command.
#[derive(Clone, Copy)]
pub(crate) enum Role {
    /// An option.
    Choice,
    /// The value of the option before it.
    Value,
    /// One of the words behind the options, the first of which stands at this place.
    Behind(usize),
}

/// A word up to its first `=`.
pub(crate) fn name_of(word: &str) -> &str
    ensures { result.now ≡ before_equals word.now }
{
    match word.split_once('=') {
        Some((name, _)) => name,
        None => word,
    }
}

/// Whether there is a `=` in a word.
pub(crate) fn has_equals(word: &str) -> bool
    ensures { result ≡ has_equals word.now }
{
    word.split_once('=').is_some()
}

/// Whether a word is no option, nor the end of them.
fn is_positional(word: &str) -> bool
    ensures { result ≡ is_positional word.now }
{
    !word.starts_with("-") || word == "-"
}

impl Role {
    ghost use Rattle.gufi_explain.specs.declared.role.Role.{Role};

    fn after_choice(options: &'static [Entry], word: &str) -> Role
        ensures { result ≡ after_choice options.now word.now }
    {
        if !has_equals(word) && takes_value(options, name_of(word).as_bytes()) {
            return Role::Value;
        }
        Role::Choice
    }

    // What comes behind a word that stands at a place.
    fn after(self, options: &'static [Entry], place: usize, word: &str) -> Role
        requires { place < 2 ^ 63 }
        ensures { result ≡ after_word options.now place self word.now }
    {
        match self {
            Role::Choice if is_positional(word) => Role::Behind(place),
            Role::Choice if word == "--" => Role::Behind(place + 1),
            Role::Choice => Role::after_choice(options, word),
            Role::Value => Role::Choice,
            Role::Behind(first) => Role::Behind(first),
        }
    }

    // What comes behind words that stand behind the name of a command.
    pub(crate) fn behind(options: &'static [Entry], words: &[String]) -> Role
        ensures { result ≡ role_from options.now 1 Role.Choice (texts words.now) }
    {
        let mut role = Role::Choice;
        for (at, word) in words.iter().enumerate() {
            role = role.after(options, at + 1, word.as_str());
        }
        role
    }

    // The role of a word at a place, or of a missing one, where no option may stand any more if it is a positional.
    fn with(self, place: usize, word: Option<&str>) -> Role
        ensures { result ≡ role_with place self (option_map (λ word. word.now) word.entry) }
    {
        match (self, word) {
            (Role::Choice, Some(word)) if !is_positional(word) => Role::Choice,
            (Role::Choice, _) => Role::Behind(place),
            (role, _) => role,
        }
    }

    /// The role of the word at a place, which may be missing.
    #[tactic(auto, unfolding(crate::specs::Roles::role_at), using(crate::proofs::Words::word_cuts))]
    pub(crate) fn at(options: &'static [Entry], words: &[String], place: usize) -> Role
        ensures { result ≡ role_at options.now (texts words.now) place }
    {
        let role = Role::behind(options, behind(front(words, place), 1));
        role.with(place, word_at(words, place))
    }
}
