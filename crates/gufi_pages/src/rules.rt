//! The rules by which refusals are explained, of the table of commands.
use crate::commands::table;
use gufi_explain::{
    CommandForm, Entry, FIELDS, FILE_KINDS, LIMITS, LINE_KINDS, NamesBehind, OFFSET_KINDS, Rules,
    START_KINDS, TEXT_KINDS, VALUES, WORD_KINDS,
};

macro_rules! command_names {
    (
        $(($status:literal $means:literal))*;
        $(($asked:literal $shown:literal))*;
        $(($front:literal $tells:literal))*;
        $($name:literal $synopsis:literal $prints:literal $words:tt $options:tt $offered:tt $others:tt)*
    ) => {
        &[$(Entry { name: $name, value: $synopsis, rule: $prints }),*]
    };
}

macro_rules! command_forms {
    (
        $(($status:literal $means:literal))*;
        $(($asked:literal $shown:literal))*;
        $(($front:literal $tells:literal))*;
        $($name:literal $synopsis:literal $prints:literal
            [$(($word:literal $is:literal))*]
            [$(($option:literal $value:literal $gives:literal))*]
            $offered:tt $others:tt)*
    ) => {
        &[$(CommandForm {
            name: $name,
            synopsis: $synopsis,
            words: &[$(Entry { name: $word, value: "", rule: $is }),*],
            options: &[$(Entry { name: $option, value: $value, rule: $gives }),*],
        }),*]
    };
}

macro_rules! names_behind {
    (
        $(($status:literal $means:literal))*;
        $(($asked:literal $shown:literal))*;
        $(($front:literal $tells:literal))*;
        $($name:literal $synopsis:literal $prints:literal $words:tt $options:tt
            [$(($title:literal $(($item:literal $argument:literal $says:literal))*))*]
            $others:tt)*
    ) => {
        &[$(NamesBehind {
            command: $name,
            names: &[$($(Entry { name: $item, value: $argument, rule: $says },)*)*],
        }),*]
    };
}

const FORMS: &[CommandForm] = table!(command_forms);

const BEHIND: &[NamesBehind] = table!(names_behind);

const NAMES: &[Entry] = table!(command_names);

// A call for each of these, so that no proof goes through more than one of them.
fn forms() -> &'static [CommandForm] {
    FORMS
}

fn behind() -> &'static [NamesBehind] {
    BEHIND
}

fn names() -> &'static [Entry] {
    NAMES
}

/// The rules of the program's own commands.
pub(crate) fn own_rules() -> Rules {
    Rules {
        commands: forms(),
        behind: behind(),
        names: names(),
        values: VALUES,
        start_kinds: START_KINDS,
        word_kinds: WORD_KINDS,
        text_kinds: TEXT_KINDS,
        line_kinds: LINE_KINDS,
        offset_kinds: OFFSET_KINDS,
        file_kinds: FILE_KINDS,
        fields: FIELDS,
        limits: LIMITS,
    }
}
