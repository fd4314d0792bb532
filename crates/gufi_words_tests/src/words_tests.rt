use clap::{Arg, ArgAction, ArgMatches, Command as ClapCommand, Error as ClapError};
use gufi_words::{Command, Common, read_words};
use std::alloc::{AllocError, Global};
use std::process::Abort;
use std::test::Fail;

fn words_of(alloc: Global, line: &str) -> Result<Vec<String>, AllocError> {
    let mut words = Vec::new(alloc);
    for word in line.split_whitespace() {
        words.push(String::from_str(alloc, word)?)?;
    }
    Ok(words)
}

/// What no run of the program shows of a command: the order of groups, limits and workers that change no answer, the most replies kept.
fn unseen(alloc: Global, command: &Command) -> Result<String, AllocError> {
    let common = match command {
        Command::Walk { gids, .. } => return format!(in alloc; "{:?}", gids.as_slice()),
        Command::Session { workers, cache, .. } => return format!(in alloc; "{workers} {cache}"),
        Command::Gen { delim, workers, .. } => return format!(in alloc; "{delim} {workers}"),
        Command::Query { common, .. } => common,
        Command::Agg { common, .. } => common,
        Command::Find { common, .. } => common,
        Command::Du { common, .. } => common,
        Command::Ls { common, .. } => common,
        Command::Stat { common } => common,
        Command::Stats { common, .. } => common,
        Command::Diff { common, .. } => common,
        _ => return Ok(String::new(alloc)),
    };
    format!(in alloc; "{} {}", common.limit, common.workers)
}

fn unseen_of(alloc: Global, words: &[String]) -> Result<String, Fail> {
    let command = read_words(alloc, words)?;
    let text = unseen(alloc, &command);
    drop(command);
    Ok(text?)
}

#[test]
fn what_no_run_shows_is_read(rt: HostRuntime) -> Result<(), Fail> {
    let rows = [
        ("walk A 102 5,6", "[5, 6]"),
        ("walk -- A 102 - |", "[]"),
        ("query H ana / SELECT", "0 1"),
        ("agg --limit=2 H ana / SELECT", "2 1"),
        ("find --now=-1 --group g H ana / -size 1", "0 1"),
        ("du --limit=2 H ana / 1 -size 1", "2 1"),
        ("ls -A H ana /", "0 1"),
        ("stat --limit 3 H ana /p", "3 1"),
        ("stats H ana / uids", "0 1"),
        ("diff --limit=3 --workers 4 G H ana /", "3 4"),
        ("session --workers 4 --passwd=p S", "4 0"),
        ("session --cache=256 S", "1 256"),
        ("gen --summary 5", "30 1"),
    ];
    for (line, wanted) in rows {
        let words = words_of(rt.alloc(), line)?;
        let found = unseen_of(rt.alloc(), words.as_slice())?;
        assert_eq!(rt; found.as_str(), wanted, "{line}");
    }
    Ok(())
}

fn with_option<'a>(
    alloc: Global,
    command: ClapCommand<'a>,
    name: &'a str,
) -> Result<ClapCommand<'a>, AllocError> {
    command.arg(Arg::new(alloc, name).long(name))
}

fn with_letter<'a>(
    alloc: Global,
    command: ClapCommand<'a>,
    name: &'a str,
    letter: char,
) -> Result<ClapCommand<'a>, AllocError> {
    let flag = Arg::new(alloc, name).short(letter);
    command.arg(flag.action(ArgAction::SetTrue))
}

fn with_flag<'a>(
    alloc: Global,
    command: ClapCommand<'a>,
    name: &'a str,
) -> Result<ClapCommand<'a>, AllocError> {
    let flag = Arg::new(alloc, name).long(name);
    command.arg(flag.action(ArgAction::SetTrue))
}

fn with_positional<'a>(
    alloc: Global,
    command: ClapCommand<'a>,
    name: &'a str,
) -> Result<ClapCommand<'a>, AllocError> {
    command.arg(Arg::new(alloc, name).required(true))
}

/// What each command has that asks an index.
fn with_common<'a>(
    alloc: Global,
    mut command: ClapCommand<'a>,
) -> Result<ClapCommand<'a>, AllocError> {
    for name in ["passwd", "group", "delim", "limit", "workers"] {
        command = with_option(alloc, command, name)?;
    }
    for name in ["index", "user", "start"] {
        command = with_positional(alloc, command, name)?;
    }
    Ok(command)
}

fn clap_ls<'a>(alloc: Global) -> Result<ClapCommand<'a>, AllocError> {
    let mut ls = with_common(alloc, ClapCommand::new(alloc, "ls"))?;
    ls = with_letter(alloc, ls, "long", 'l')?;
    ls = with_letter(alloc, ls, "all", 'A')?;
    Ok(ls)
}

fn clap_find<'a>(alloc: Global) -> Result<ClapCommand<'a>, AllocError> {
    let find = with_common(alloc, ClapCommand::new(alloc, "find"))?;
    with_option(alloc, find, "prefix")
}

fn clap_query<'a>(alloc: Global) -> Result<ClapCommand<'a>, AllocError> {
    let mut query = with_common(alloc, ClapCommand::new(alloc, "query"))?;
    for name in ["escape", "header", "json"] {
        query = with_flag(alloc, query, name)?;
    }
    with_positional(alloc, query, "text")
}

fn found_by_clap<'a>(
    command: ClapCommand<'a>,
    words: &'a [String],
) -> Result<ArgMatches<'a>, ClapError> {
    command.try_get_matches_from(words)
}

fn has_value(found: &ArgMatches<'_>, name: &str, value: Option<&str>) -> bool {
    match (found.get_str(name), value) {
        (Some(text), Some(value)) => text == value,
        (None, None) => true,
        _ => false,
    }
}

fn has_bytes(found: &ArgMatches<'_>, name: &str, value: &[u8]) -> bool {
    match found.get_str(name) {
        Some(text) => text.as_bytes() == value,
        None => false,
    }
}

/// Asserts that clap found what was read.
fn assert_common<R: Abort>(rt: &R, found: &ArgMatches<'_>, common: &Common) {
    let passwd = common.passwd.as_ref().map(|file| file.as_str());
    let group = common.group.as_ref().map(|file| file.as_str());
    assert!(rt; has_bytes(found, "delim", &[common.delim]));
    assert!(rt; has_bytes(found, "start", common.start.printed()));
    assert!(rt; has_value(found, "passwd", passwd));
    assert!(rt; has_value(found, "group", group));
    assert!(rt; has_value(found, "limit", None));
    assert!(rt; has_value(found, "workers", None));
    assert!(rt; has_value(found, "index", Some(common.index.as_str())));
    assert!(rt; has_value(found, "user", Some(common.user.as_str())));
    assert_eq!(rt; common.limit, 0);
    assert_eq!(rt; common.workers, 1);
    assert_eq!(rt; passwd, Some("P"));
}

fn assert_flags<R: Abort>(rt: &R, found: &ArgMatches<'_>, long: bool, all: bool) {
    assert!(rt; long);
    assert_eq!(rt; long, found.get_flag("long"));
    assert_eq!(rt; all, found.get_flag("all"));
}

fn assert_ls<R: AllocGlobal + Abort>(
    rt: &R,
    words: &[String],
    command: &Command,
) -> Result<(), Fail> {
    let Command::Ls { common, long, all } = command else {
        panic!(rt; "it is another command");
    };
    let found = found_by_clap(clap_ls(rt.alloc())?, words)?;
    assert_common(rt, &found, common);
    assert_flags(rt, &found, *long, *all);
    Ok(())
}

#[test]
fn clap_finds_the_same_in_the_words_of_ls(rt: HostRuntime) -> Result<(), Fail> {
    let words = words_of(rt.alloc(), "ls --delim=| --passwd=P --group=G -l H ana /")?;
    let command = read_words(rt.alloc(), words.as_slice())?;
    let outcome = assert_ls(&rt, words.as_slice(), &command);
    drop(command);
    outcome
}

fn assert_find<R: AllocGlobal + Abort>(
    rt: &R,
    words: &[String],
    command: &Command,
) -> Result<(), Fail> {
    let Command::Find { common, prefix, .. } = command else {
        panic!(rt; "it is another command");
    };
    let found = found_by_clap(clap_find(rt.alloc())?, words)?;
    let prefix = prefix.as_ref().map(|prefix| prefix.as_str());
    assert_common(rt, &found, common);
    assert!(rt; has_value(&found, "prefix", prefix));
    assert_eq!(rt; prefix, Some("/data/site2"));
    Ok(())
}

#[test]
fn clap_finds_the_same_in_the_words_of_find(rt: HostRuntime) -> Result<(), Fail> {
    let line = "find --delim=| --passwd=P --prefix /data/site2 --group=G H ana /";
    let words = words_of(rt.alloc(), line)?;
    let command = read_words(rt.alloc(), words.as_slice())?;
    let outcome = assert_find(&rt, words.as_slice(), &command);
    drop(command);
    outcome
}

fn assert_forms<R: Abort>(rt: &R, found: &ArgMatches<'_>, escape: bool, header: bool, json: bool) {
    assert_eq!(rt; escape, found.get_flag("escape"));
    assert_eq!(rt; header, found.get_flag("header"));
    assert_eq!(rt; json, found.get_flag("json"));
    assert!(rt; escape);
    assert!(rt; header);
    assert!(rt; !json);
}

fn assert_query<R: AllocGlobal + Abort>(
    rt: &R,
    words: &[String],
    command: &Command,
) -> Result<(), Fail> {
    let Command::Query {
        common,
        escape,
        header,
        json,
        text,
    } = command
    else {
        panic!(rt; "it is another command");
    };
    let found = found_by_clap(clap_query(rt.alloc())?, words)?;
    assert_common(rt, &found, common);
    assert_forms(rt, &found, *escape, *header, *json);
    assert!(rt; has_value(&found, "text", Some(text.as_str())));
    Ok(())
}

#[test]
fn clap_finds_the_same_in_the_words_of_query(rt: HostRuntime) -> Result<(), Fail> {
    let line = "query --delim=| --header --passwd=P --group=G --escape H ana / SELECT";
    let words = words_of(rt.alloc(), line)?;
    let command = read_words(rt.alloc(), words.as_slice())?;
    let outcome = assert_query(&rt, words.as_slice(), &command);
    drop(command);
    outcome
}

fn clap_refresh<'a>(alloc: Global) -> Result<ClapCommand<'a>, AllocError> {
    let mut refresh = ClapCommand::new(alloc, "refresh");
    for name in ["delim", "limit"] {
        refresh = with_option(alloc, refresh, name)?;
    }
    for name in ["index", "path", "trace"] {
        refresh = with_positional(alloc, refresh, name)?;
    }
    Ok(refresh)
}

fn assert_refresh<R: AllocGlobal + Abort>(
    rt: &R,
    words: &[String],
    command: &Command,
) -> Result<(), Fail> {
    let Command::Refresh {
        index,
        delim,
        limit,
        path,
        trace,
    } = command
    else {
        panic!(rt; "it is another command");
    };
    let found = found_by_clap(clap_refresh(rt.alloc())?, words)?;
    assert!(rt; has_bytes(&found, "delim", &[*delim]));
    assert!(rt; has_bytes(&found, "path", path.printed()));
    assert!(rt; has_value(&found, "index", Some(index.as_str())));
    assert!(rt; has_value(&found, "trace", Some(trace.as_str())));
    assert!(rt; has_value(&found, "limit", Some("20")));
    assert_eq!(rt; *limit, 20);
    Ok(())
}

#[test]
fn clap_finds_the_same_in_the_words_of_refresh(rt: HostRuntime) -> Result<(), Fail> {
    let words = words_of(rt.alloc(), "refresh --limit 20 --delim=| H /p T")?;
    let command = read_words(rt.alloc(), words.as_slice())?;
    let outcome = assert_refresh(&rt, words.as_slice(), &command);
    drop(command);
    outcome
}
