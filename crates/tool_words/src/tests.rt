//! Command lines, written with a space between the words.
use crate::format::Format;
use crate::request::{Request, WordsFault, read_words};
use crate::settings::{ConvertSettings, ExerciseSettings, LocateSettings, UpdatedbSettings};
use crate::tool::{Tool, speaker, tool_of};
use crate::values::DEFAULT_DATABASE;
use std::alloc::{AllocError, Global};

fn words_of(alloc: Global, line: &str) -> Result<Vec<String>, AllocError> {
    let mut words = Vec::new(alloc);
    for word in line.split(' ') {
        words.push(String::from_str(alloc, word)?)?;
    }
    Ok(words)
}

fn is_usage(alloc: Global, line: &str) -> Result<bool, AllocError> {
    let words = words_of(alloc, line)?;
    let answer = read_words(alloc, words.as_slice(), None);
    Ok(matches!(answer, Err(WordsFault::Usage)))
}

fn is_accepted(alloc: Global, line: &str) -> Result<bool, AllocError> {
    let words = words_of(alloc, line)?;
    let answer = read_words(alloc, words.as_slice(), None);
    Ok(answer.is_ok())
}

#[test]
fn refused_words_of_locate(rt: HostRuntime) -> Result<(), AllocError> {
    for line in [
        "locate",
        "locate -c",
        "locate -l 0",
        "locate -b -w a",
        "locate -bw a",
        "locate -L -P a",
        "locate -LP a",
        "locate -LH a",
        "locate -l 1 -n 1 a",
        "locate -l 1 --limit 1 a",
        "locate -n 1 -n 1 a",
        "locate -d x -d y a",
        "locate --limit= a",
        "locate -l +5 a",
        "locate -l -1 a",
        "locate -l 18446744073709551616 a",
        "locate -l 000000000000000000000 a",
        "locate -l 184467440737095516150 a",
        "locate -n 1x a",
        "locate --all=x a",
        "locate --data x a",
        "locate --help",
        "locate -V",
        "locate -x a",
        "locate a -d",
        "locate -d -i a",
        "locate -d -- a",
        "locate -S -b -w",
        "locate -S -L -P",
        "locate -S -l 1 -n 1",
        "locate -S -l x",
        "locate --regex",
        "locate -r",
        "locate -r a b",
        "locate b -r a",
        "locate --regex -r a",
        "locate -r a --regexp b",
        "locate -r a -r b",
        "locate -S -r a b",
        "locate -S -r a --regex",
        "locate --regex=a b",
        "locate --rege a",
    ] {
        assert!(rt; is_usage(rt.alloc(), line)?, "{line}");
    }
    Ok(())
}

#[test]
fn accepted_words_of_locate(rt: HostRuntime) -> Result<(), AllocError> {
    for line in [
        "locate a",
        "locate ",
        "locate -",
        "locate -S",
        "locate -bb a",
        "locate -cid db a",
        "locate a -b c",
        "locate -- -b",
        "locate -l 0 a",
        "locate -l 000 a",
        "locate -l 00000000000000000001 a",
        "locate -n18446744073709551615 a",
        "locate -d-i a",
        "locate --database=-i a",
        "locate -m -s -w a",
        "locate -L a",
        "locate -PH a",
        "locate --regex a",
        "locate --regex --regex a b",
        "locate -r a",
        "locate --regexp=-a",
        "locate --regexp=",
        "locate -bir a",
        "locate -S -r a",
        "locate -S --regex",
    ] {
        assert!(rt; is_accepted(rt.alloc(), line)?, "{line}");
    }
    Ok(())
}

#[test]
fn refused_words_of_updatedb(rt: HostRuntime) -> Result<(), AllocError> {
    for line in [
        "updatedb x",
        "updatedb -U a",
        "updatedb -U a -o /db",
        "updatedb -U ",
        "updatedb -U //",
        "updatedb -U /a/",
        "updatedb -U /a/./b",
        "updatedb -U /..",
        "updatedb -U / -U /",
        "updatedb -o ",
        "updatedb --output a -o b",
        "updatedb -l maybe",
        "updatedb -l=",
        "updatedb -l Yes",
        "updatedb --prune-bind-mounts 2",
        "updatedb --prune-bind-mounts=",
        "updatedb -n a/b",
        "updatedb --prunenames a\tb\x0b/c",
        "updatedb -f a -f b",
        "updatedb --db-version 2",
        "updatedb --db-version 01",
        "updatedb --db-version=",
        "updatedb --recent-margin 3601",
        "updatedb --recent-margin 00003",
        "updatedb --recent-margin=",
        "updatedb --recent-margin -1",
        "updatedb --verbose=1",
        "updatedb --help",
        "updatedb -h",
        "updatedb --version",
        "updatedb --db 1",
    ] {
        assert!(rt; is_usage(rt.alloc(), line)?, "{line}");
    }
    Ok(())
}

#[test]
fn accepted_words_of_updatedb(rt: HostRuntime) -> Result<(), AllocError> {
    for line in [
        "updatedb",
        "updatedb -vv",
        "updatedb -U /none -o /db",
        "updatedb -U /usr/..bin",
        "updatedb -l 0",
        "updatedb -lno",
        "updatedb -l=yes",
        "updatedb --prune-bind-mounts=1",
        "updatedb -f a/b -e /a/b",
        "updatedb -n ",
        "updatedb --prunenames=",
        "updatedb --db-version=1",
        "updatedb --recent-margin 0",
        "updatedb --recent-margin 3600",
        "updatedb --",
    ] {
        assert!(rt; is_accepted(rt.alloc(), line)?, "{line}");
    }
    Ok(())
}

fn locate<'a>(
    alloc: Global,
    words: &'a [String],
    path: Option<&'a str>,
) -> Option<LocateSettings<'a>> {
    match read_words(alloc, words, path) {
        Ok(Request::Locate(settings)) => Some(settings),
        _ => None,
    }
}

fn updatedb<'a>(alloc: Global, words: &'a [String]) -> Option<UpdatedbSettings<'a>> {
    match read_words(alloc, words, None) {
        Ok(Request::Updatedb(settings)) => Some(settings),
        _ => None,
    }
}

#[test]
fn settings_of_locate(rt: HostRuntime) -> Result<(), AllocError> {
    let words = words_of(rt.alloc(), "locate -AceiH0qS -l 007 -d :x: a B")?;
    let Some(s) = locate(rt.alloc(), words.as_slice(), Some(":y")) else {
        panic!(rt; "refused");
    };
    assert!(rt; s.all && !s.base && s.count_only && s.existing && !s.follow);
    assert!(rt; s.fold && s.separator == 0 && s.quiet && s.statistics);
    assert_eq!(rt; s.limit, Some(7));
    let names = [
        DEFAULT_DATABASE,
        "x",
        DEFAULT_DATABASE,
        DEFAULT_DATABASE,
        "y",
    ];
    assert!(rt; s.databases.as_slice() == names.as_slice());
    assert!(rt; s.patterns.as_slice() == ["a", "B"].as_slice());
    let words = words_of(rt.alloc(), "locate -n 18446744073709551615 -d - -- -b")?;
    let Some(s) = locate(rt.alloc(), words.as_slice(), Some(":")) else {
        panic!(rt; "refused");
    };
    assert_eq!(rt; s.limit, Some(18446744073709551615));
    assert!(rt; s.databases.as_slice() == ["-", DEFAULT_DATABASE, DEFAULT_DATABASE].as_slice());
    assert!(rt; s.patterns.as_slice() == ["-b"].as_slice());
    let words = words_of(rt.alloc(), "locate -Leb a")?;
    let Some(s) = locate(rt.alloc(), words.as_slice(), Some("")) else {
        panic!(rt; "refused");
    };
    assert!(rt; !s.all && s.base && !s.count_only && s.existing && s.follow);
    assert!(rt; !s.fold && s.separator == b'\n' && !s.quiet && !s.statistics);
    assert_eq!(rt; s.limit, None);
    assert!(rt; s.databases.as_slice() == [DEFAULT_DATABASE].as_slice());
    Ok(())
}

#[test]
fn expressions_of_locate(rt: HostRuntime) -> Result<(), AllocError> {
    let words = words_of(rt.alloc(), "locate --regex a b")?;
    let Some(s) = locate(rt.alloc(), words.as_slice(), None) else {
        panic!(rt; "refused");
    };
    assert!(rt; s.regex && s.regexp.is_none() && s.seeks_expressions());
    assert!(rt; s.patterns.as_slice() == ["a", "b"].as_slice());
    let words = words_of(rt.alloc(), "locate -r a")?;
    let Some(s) = locate(rt.alloc(), words.as_slice(), None) else {
        panic!(rt; "refused");
    };
    assert!(rt; !s.regex && s.regexp == Some("a") && s.seeks_expressions());
    assert!(rt; s.patterns.is_empty());
    let words = words_of(rt.alloc(), "locate -S --regexp=")?;
    let Some(s) = locate(rt.alloc(), words.as_slice(), None) else {
        panic!(rt; "refused");
    };
    assert!(rt; s.regexp == Some("") && !s.seeks_expressions());
    Ok(())
}

#[test]
fn settings_of_updatedb(rt: HostRuntime) -> Result<(), AllocError> {
    let line =
        "updatedb -U /usr -o db -l no -v --db-version 1 --recent-margin 0010 --prune-bind-mounts yes --prunefs= --prunenames a,b --prunepaths /x -f nfs -n .git -e /tmp";
    let words = words_of(rt.alloc(), line)?;
    let Some(s) = updatedb(rt.alloc(), words.as_slice()) else {
        panic!(rt; "refused");
    };
    assert!(rt; s.root == "/usr" && s.output == "db" && !s.visibility && s.verbose);
    assert_eq!(rt;
        (s.version, s.margin, s.prune_bind_mounts),
        (1, Some(10), Some(true))
    );
    assert!(rt; s.prunefs == Some("") && s.prunenames == Some("a,b") && s.prunepaths == Some("/x"));
    assert!(rt; s.add_prunefs == "nfs" && s.add_prunenames == ".git" && s.add_prunepaths == "/tmp");
    let words = words_of(rt.alloc(), "updatedb")?;
    let Some(s) = updatedb(rt.alloc(), words.as_slice()) else {
        panic!(rt; "refused");
    };
    assert!(rt; s.root == "/" && s.output == DEFAULT_DATABASE && s.visibility && !s.verbose);
    assert_eq!(rt; (s.version, s.margin, s.prune_bind_mounts), (0, None, None));
    assert!(rt; s.prunefs.is_none() && s.prunenames.is_none() && s.prunepaths.is_none());
    assert!(rt;
        s.add_prunefs.is_empty() && s.add_prunenames.is_empty() && s.add_prunepaths.is_empty()
    );
    Ok(())
}

/// So many times `piece`.
fn repeated(alloc: Global, piece: &str, count: u32) -> Result<String, AllocError> {
    let mut text = String::new(alloc);
    for _ in 0..count {
        text.push_str(piece)?;
    }
    Ok(text)
}

#[test]
fn longest_list(rt: HostRuntime) -> Result<(), AllocError> {
    let mut list = repeated(rt.alloc(), "aaaaaaaaaaaaaaaa", 1 << 20)?;
    for beyond in [false, true] {
        let mut words = words_of(rt.alloc(), "updatedb -f")?;
        words.push(list.clone()?)?;
        let answer = read_words(rt.alloc(), words.as_slice(), None);
        assert_eq!(rt; matches!(answer, Err(WordsFault::Usage)), beyond);
        assert_eq!(rt; answer.is_ok(), !beyond);
        list.push('a')?;
    }
    Ok(())
}

#[test]
fn most_databases(rt: HostRuntime) -> Result<(), AllocError> {
    let colons = repeated(rt.alloc(), ":", 4095)?;
    let mut words = words_of(rt.alloc(), "locate a -d")?;
    words.push(colons)?;
    let Some(s) = locate(rt.alloc(), words.as_slice(), Some("")) else {
        panic!(rt; "refused");
    };
    assert_eq!(rt; s.databases.len(), 4096);
    let answer = read_words(rt.alloc(), words.as_slice(), Some("x"));
    assert!(rt; matches!(answer, Err(WordsFault::Usage)));
    let mut words = words_of(rt.alloc(), "locate a -d")?;
    words.push(repeated(rt.alloc(), ":", 4096)?)?;
    let answer = read_words(rt.alloc(), words.as_slice(), None);
    assert!(rt; matches!(answer, Err(WordsFault::Usage)));
    Ok(())
}

#[test]
fn default_databases(rt: HostRuntime) -> Result<(), AllocError> {
    let words = words_of(rt.alloc(), "locate a -d ::")?;
    let Some(s) = locate(rt.alloc(), words.as_slice(), None) else {
        panic!(rt; "refused");
    };
    let three = [DEFAULT_DATABASE, DEFAULT_DATABASE, DEFAULT_DATABASE];
    assert!(rt; s.databases.as_slice() == three.as_slice());
    Ok(())
}

#[test]
fn longest_root(rt: HostRuntime) -> Result<(), AllocError> {
    let mut root = repeated(rt.alloc(), "/aaaaaaa", 512)?;
    for beyond in [false, true] {
        let mut words = words_of(rt.alloc(), "updatedb -U")?;
        words.push(root.clone()?)?;
        let answer = read_words(rt.alloc(), words.as_slice(), None);
        assert_eq!(rt; matches!(answer, Err(WordsFault::Usage)), beyond);
        assert_eq!(rt; answer.is_ok(), !beyond);
        root.push('a')?;
    }
    Ok(())
}

#[test]
fn refused_words_of_convert_and_exercise(rt: HostRuntime) -> Result<(), AllocError> {
    for line in [
        "convert",
        "convert a b",
        "convert --from list a b",
        "convert --to list",
        "convert --to list a",
        "convert --to list a b c",
        "convert --to list  b",
        "convert --to list a ",
        "convert --to List a b",
        "convert --to lists a b",
        "convert --to= a b",
        "convert --to list --from a b",
        "convert --to list --from= a b",
        "convert --to list --from tar a b",
        "convert --to list --to list a b",
        "convert --to list --from list0 --from list0 a b",
        "convert -t list a b",
        "convert --to list --help a b",
        "exercise",
        "exercise 1",
        "exercise 1 1 1",
        "exercise  1",
        "exercise 1 ",
        "exercise 1 101",
        "exercise 1 -1",
        "exercise +1 1",
        "exercise 1x 1",
        "exercise 18446744073709551616 1",
        "exercise 000000000000000000001 1",
        "exercise 1 000000000000000000001",
        "exercise --help",
    ] {
        assert!(rt; is_usage(rt.alloc(), line)?, "{line}");
    }
    Ok(())
}

fn convert<'a>(alloc: Global, words: &'a [String]) -> Option<ConvertSettings<'a>> {
    match read_words(alloc, words, None) {
        Ok(Request::Convert(settings)) => Some(settings),
        _ => None,
    }
}

fn exercise(alloc: Global, words: &[String]) -> Option<ExerciseSettings> {
    match read_words(alloc, words, None) {
        Ok(Request::Exercise(settings)) => Some(settings),
        _ => None,
    }
}

#[test]
fn settings_of_convert(rt: HostRuntime) -> Result<(), AllocError> {
    for (line, to) in [
        ("convert --to mlocate in out", Format::Mlocate),
        ("convert --to=locate02 in out", Format::Locate02),
        ("convert in --to bigram out", Format::Bigram),
        ("convert in out --to list", Format::List),
        ("convert --to list0 -- in out", Format::List0),
    ] {
        let words = words_of(rt.alloc(), line)?;
        let Some(s) = convert(rt.alloc(), words.as_slice()) else {
            panic!(rt; "refused");
        };
        assert!(rt; s.to == to && s.from.is_none() && s.input == "in" && s.output == "out");
    }
    let words = words_of(rt.alloc(), "convert - --from list0 -- --to --to mlocate")?;
    assert!(rt; convert(rt.alloc(), words.as_slice()).is_none());
    let words = words_of(rt.alloc(), "convert --to mlocate - --from list0 -- --to")?;
    let Some(s) = convert(rt.alloc(), words.as_slice()) else {
        panic!(rt; "refused");
    };
    assert!(rt; s.to == Format::Mlocate && s.from == Some(Format::List0));
    assert!(rt; s.input == "-" && s.output == "--to");
    Ok(())
}

#[test]
fn settings_of_exercise(rt: HostRuntime) -> Result<(), AllocError> {
    for (line, number, rounds) in [
        ("exercise 0 0", 0, 0),
        (
            "exercise 18446744073709551615 100",
            18446744073709551615,
            100,
        ),
        ("exercise -- 007 00000000000000000007", 7, 7),
    ] {
        let words = words_of(rt.alloc(), line)?;
        let Some(s) = exercise(rt.alloc(), words.as_slice()) else {
            panic!(rt; "refused");
        };
        assert_eq!(rt; (s.number, s.rounds), (number, rounds));
    }
    Ok(())
}

#[test]
fn tools_by_name(rt: HostRuntime) -> Result<(), AllocError> {
    for line in ["", "grep a", "locate_tools a", "Locate a"] {
        let words = words_of(rt.alloc(), line)?;
        assert_eq!(rt; tool_of(words.as_slice()), None);
        assert!(rt; is_usage(rt.alloc(), line)?);
    }
    assert!(rt; matches!(read_words(rt.alloc(), &[], None), Err(WordsFault::Usage)));
    for (line, tool) in [
        ("updatedb", Tool::Updatedb),
        ("locate", Tool::Locate),
        ("convert -x", Tool::Convert),
        ("exercise", Tool::Exercise),
    ] {
        let words = words_of(rt.alloc(), line)?;
        assert_eq!(rt; tool_of(words.as_slice()), Some(tool));
    }
    assert_eq!(rt; speaker(Some(Tool::Convert)), "convert");
    assert_eq!(rt; speaker(None), "locate_tools");
    Ok(())
}
