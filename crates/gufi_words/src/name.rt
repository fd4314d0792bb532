//! The names of commands and of their options.

ghost use Rattle.std.specs.Prelude.{◌≡◌};
ghost use Rattle.gufi_words.specs.CommandNames.{command_named, option_named, takes_value, is_common, allows};

/// A command.
#[derive(Clone, Copy)]
pub(crate) enum CommandName {
    Walk,
    Trace2index,
    Rollup,
    Index2trace,
    Info,
    Refresh,
    Query,
    Agg,
    Find,
    Du,
    Ls,
    Stat,
    Stats,
    Diff,
    Session,
    Gen,
}

/// An option of some command.
#[derive(Clone, Copy)]
pub(crate) enum OptionName {
    Passwd,
    Group,
    Delim,
    Limit,
    Workers,
    Now,
    Cache,
    Prefix,
    Long,
    All,
    Summary,
    Names,
    Escape,
    Header,
    Json,
}

impl OptionName {
    #[tactic(auto, unfolding(crate::specs::CommandNames::option_named))]
    pub(crate) fn of(word: &str) -> Option<OptionName>
        ensures { result ≡ option_named word.now }
    {
        match word {
            "--passwd" => Some(OptionName::Passwd),
            "--group" => Some(OptionName::Group),
            "--delim" => Some(OptionName::Delim),
            "--limit" => Some(OptionName::Limit),
            "--workers" => Some(OptionName::Workers),
            "--now" => Some(OptionName::Now),
            "--cache" => Some(OptionName::Cache),
            "--prefix" => Some(OptionName::Prefix),
            "-l" => Some(OptionName::Long),
            "-A" => Some(OptionName::All),
            "--summary" => Some(OptionName::Summary),
            "--names" => Some(OptionName::Names),
            "--escape" => Some(OptionName::Escape),
            "--header" => Some(OptionName::Header),
            "--json" => Some(OptionName::Json),
            _ => None,
        }
    }

    pub(crate) fn takes_value(self) -> bool
        ensures { result ≡ takes_value self }
    {
        match self {
            OptionName::Long
            | OptionName::All
            | OptionName::Summary
            | OptionName::Names
            | OptionName::Escape
            | OptionName::Header
            | OptionName::Json => false,
            _ => true,
        }
    }

    /// Whether each command that asks an index has it.
    fn is_common(self) -> bool
        ensures { result ≡ is_common self }
    {
        match self {
            OptionName::Passwd
            | OptionName::Group
            | OptionName::Delim
            | OptionName::Limit
            | OptionName::Workers => true,
            _ => false,
        }
    }
}

impl CommandName {
    #[tactic(auto, unfolding(crate::specs::CommandNames::command_named))]
    pub(crate) fn of(word: &str) -> Option<CommandName>
        ensures { result ≡ command_named word.now }
    {
        match word {
            "walk" => Some(CommandName::Walk),
            "trace2index" => Some(CommandName::Trace2index),
            "rollup" => Some(CommandName::Rollup),
            "index2trace" => Some(CommandName::Index2trace),
            "info" => Some(CommandName::Info),
            "refresh" => Some(CommandName::Refresh),
            "query" => Some(CommandName::Query),
            "agg" => Some(CommandName::Agg),
            "find" => Some(CommandName::Find),
            "du" => Some(CommandName::Du),
            "ls" => Some(CommandName::Ls),
            "stat" => Some(CommandName::Stat),
            "stats" => Some(CommandName::Stats),
            "diff" => Some(CommandName::Diff),
            "session" => Some(CommandName::Session),
            "gen" => Some(CommandName::Gen),
            _ => None,
        }
    }

    /// Whether the option is one of the command's.
    pub(crate) fn allows(self, option: OptionName) -> bool
        ensures { result ≡ allows self option }
    {
        match self {
            CommandName::Walk => false,
            CommandName::Trace2index | CommandName::Index2trace => {
                matches!(option, OptionName::Delim)
            }
            CommandName::Rollup | CommandName::Info | CommandName::Refresh => {
                matches!(option, OptionName::Delim | OptionName::Limit)
            }
            CommandName::Query => {
                matches!(
                    option,
                    OptionName::Escape | OptionName::Header | OptionName::Json
                ) || option.is_common()
            }
            CommandName::Agg | CommandName::Stats => {
                matches!(option, OptionName::Names) || option.is_common()
            }
            CommandName::Stat | CommandName::Diff => option.is_common(),
            CommandName::Find => {
                matches!(option, OptionName::Now | OptionName::Prefix) || option.is_common()
            }
            CommandName::Du => matches!(
                option,
                OptionName::Passwd
                    | OptionName::Group
                    | OptionName::Delim
                    | OptionName::Limit
                    | OptionName::Now
            ),
            CommandName::Ls => {
                matches!(option, OptionName::Long | OptionName::All) || option.is_common()
            }
            CommandName::Session => matches!(
                option,
                OptionName::Passwd
                    | OptionName::Group
                    | OptionName::Delim
                    | OptionName::Workers
                    | OptionName::Now
                    | OptionName::Cache
            ),
            CommandName::Gen => matches!(
                option,
                OptionName::Delim | OptionName::Workers | OptionName::Summary
            ),
        }
    }
}
