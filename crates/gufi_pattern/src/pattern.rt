//! Patterns of REGEXP.
ghost use Rattle.std.specs.Prelude.{◌≡◌, true, false, IfOk, IfErr};
ghost use Rattle.gufi_pattern.specs.Patterns.{is_bad_pattern, is_pattern_found};

use gufi_base::Memory;
use regex::Error;
use regex::bytes::{Matcher, Regex};
use std::alloc::Global;
use std::marker::Model;

/// Why no pattern was built.
#[derive(Clone, Copy)]
pub enum PatternFault {
    /// It is no UTF-8, has no reading, or is nested too deep.
    Bad,
    /// Memory was wanted, or the program of the pattern would be too large.
    Memory,
}

/// A pattern that was read. Contracts see it as its text.
#[derive(Drop)]
pub struct Pattern {
    regex: Regex,
}

impl Model for Pattern {
    ghost use Rattle.std.specs.Prelude.{◌≡◌, List, ℕ};
    ghost use Rattle.regex.specs.Bytes.{regex_source, regex_config, IsReadFromSource};
    ghost use Rattle.gufi_pattern.specs.Patterns.{bytes_config};

    ghost Value = { List ℕ };

    ghost view = { λ p. regex_source p.regex };

    ghost invariant = { λ p. (regex_config p.regex ≡ bytes_config) × IsReadFromSource p.regex };
}

impl Pattern {
    /// Reads a pattern by the syntax of the `regex` crate over bytes, in the time that `regex` takes to build it.
    ///
    /// One that `regex` refuses for another cause than its syntax, such as its size, is answered as `Memory`.
    pub fn of(alloc: Global, pattern: &[u8]) -> Result<Pattern, PatternFault>
        ensures built { IfOk result (λ p. p ≡ pattern.now) }
        ensures good { IfOk result (λ _. is_bad_pattern pattern.now ≡ false) }
        ensures bad { IfErr result (λ e. e ≡ PatternFault.Bad → is_bad_pattern pattern.now ≡ true) }
    {
        let Ok(source) = str::from_utf8(pattern) else {
            return Err(PatternFault::Bad);
        };
        match Regex::new(alloc, source) {
            Ok(regex) => Ok(Pattern { regex }),
            Err(Error::Syntax(_)) => Err(PatternFault::Bad),
            Err(_) => Err(PatternFault::Memory),
        }
    }

    /// A search for it, with memory of its own.
    pub fn search(&self, alloc: Global) -> Result<Search<'_>, Memory>
        ensures { IfOk result (λ s. s ≡ self.now) }
    {
        let matcher = self.regex.matcher(alloc)?;
        Ok(Search {
            regex: &self.regex,
            matcher,
        })
    }
}

/// A search for a pattern, kept for text after text. Contracts see it as the pattern's text.
#[derive(Drop)]
pub struct Search<'p> {
    regex: &'p Regex,
    matcher: Matcher<'p>,
}

impl<'p> Model for Search<'p> {
    ghost use Rattle.std.specs.Prelude.{◌≡◌, List, ℕ};
    ghost use Rattle.regex.specs.Bytes.{regex_source, regex_config, regex_pattern, matcher_pattern, IsReadFromSource};
    ghost use Rattle.gufi_pattern.specs.Patterns.{bytes_config};

    ghost Value = { List ℕ };

    ghost view = { λ s. regex_source s.regex.now };

    ghost invariant = { λ s. (regex_config s.regex.now ≡ bytes_config) × IsReadFromSource s.regex.now
        × (matcher_pattern s.matcher ≡ regex_pattern s.regex.now) };
}

impl<'p> Search<'p> {
    /// Whether the pattern is found in the text, at any place.
    pub fn is_found(&mut self, text: &[u8]) -> bool
        ensures found { result ≡ is_pattern_found self.old text.now }
        ensures same { self.new ≡ self.old }
    {
        self.matcher.is_match(text)
    }
}
