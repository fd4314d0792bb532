//! The command that the words are.
ghost use Rattle.std.specs.Prelude.{IfErr, IfOk, IsTrue};
ghost use Rattle.gufi_words.specs.declared.command.Command.{Command as SeenCommand};
ghost use Rattle.gufi_words.specs.WordTexts.{texts};
ghost use Rattle.gufi_words.specs.CommandWords.{is_delimited};
ghost use Rattle.gufi_top.specs.Verdict.{command_in};
ghost use Rattle.gufi_top.specs.Calls.{Gives, IsOfBytes, IsOfWords};

use crate::halt::{Halt, refused};
use crate::note;
use gufi_words::{Command, WordError, read_words};
use std::alloc::Global;

/// The command that the words are, whether its work has come or not.
#[tactic(auto, using(crate::proofs::RunLemmas::commands, gufi_words::proofs::Delimited::words_delimited), unfolding(crate::specs::Verdict::command_in))]
pub(crate) fn read_command(alloc: Global, words: &[String]) -> Result<Command, Halt>
    ensures command { Gives (λ (command : SeenCommand). command) result (command_in (texts words.now)) }
    ensures delimited { IfOk result (λ command. IsTrue (is_delimited command)) }
    ensures halt { IfErr result IsOfBytes }
    ensures of_words { IfErr result IsOfWords }
{
    match read_words(alloc, words) {
        Ok(command) => Ok(command),
        Err(WordError::Refused { word }) => refused(2, note::word_refused(alloc, word)?),
        Err(WordError::Memory) => Err(Halt::Memory),
    }
}
