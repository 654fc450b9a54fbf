//! Worked configurations: what is read, refused, changed, pruned and written.
use crate::{
    Changes, Conf, ConfCause, Words, apply, conf_block, flag_word, margin_word, read_conf,
};
use std::alloc::{AllocError, Global};
use std::test::Fail;

/// A configuration, in which `~` stands for a newline.
fn text_of(alloc: Global, written: &[u8]) -> Result<Vec<u8>, AllocError> {
    written
        .iter()
        .map(|byte| if *byte == b'~' { b'\n' } else { *byte })
        .collect(alloc)
}

/// The block of the configuration that a text gives.
fn block_of(alloc: Global, text: &[u8]) -> Result<Vec<u8>, Fail> {
    let conf = read_conf(alloc, text)?;
    Ok(conf_block(alloc, &conf)?.into_vec())
}

/// Puts a variable with its values, which stand between commas, at the end of a block.
fn put_variable(block: &mut Vec<u8>, name: &[u8], values: &[u8]) -> Result<(), AllocError> {
    block.extend_from_slice(name)?;
    block.push(0)?;
    for value in values.split(|byte| *byte == b',') {
        if !value.is_empty() {
            block.extend_from_slice(value)?;
            block.push(0)?;
        }
    }
    block.push(0)?;
    Ok(())
}

/// A block of these values; where no margin is given, without it.
fn spelled(
    alloc: Global,
    flag: &[u8],
    fs: &[u8],
    names: &[u8],
    paths: &[u8],
    margin: &[u8],
) -> Result<Vec<u8>, AllocError> {
    let mut block = Vec::new(alloc);
    put_variable(&mut block, b"prune_bind_mounts", flag)?;
    put_variable(&mut block, b"prunefs", fs)?;
    put_variable(&mut block, b"prunenames", names)?;
    put_variable(&mut block, b"prunepaths", paths)?;
    if !margin.is_empty() {
        put_variable(&mut block, b"recent_margin", margin)?;
    }
    Ok(block)
}

/// No change.
fn no_changes(alloc: Global) -> Changes {
    Changes {
        bind: None,
        margin: None,
        fs: None,
        names: None,
        paths: None,
        add_fs: Words::none(alloc),
        add_names: Words::none(alloc),
        add_paths: Words::none(alloc),
    }
}

/// The digit of a line.
fn digit(line: u64) -> &'static [u8] {
    match line {
        1 => b"1",
        2 => b"2",
        3 => b"3",
        _ => b"another",
    }
}

/// Whether the text is refused for this cause in this line.
fn is_refused(alloc: Global, line: &[u8], cause: &[u8], text: &[u8]) -> bool {
    match read_conf(alloc, text) {
        Ok(_) => false,
        Err(fault) => digit(fault.line) == line && fault.cause.text() == cause,
    }
}

/// The first row that is answered otherwise. A row is the line, the cause and the text.
fn first_not_refused(
    alloc: Global,
    rows: &'static [u8],
) -> Result<Option<&'static [u8]>, AllocError> {
    for row in rows.split(|byte| *byte == b'\n') {
        let mut parts = row.split(|byte| *byte == b'|');
        let (Some(line), Some(cause), Some(text)) = (parts.next(), parts.next(), parts.next())
        else {
            return Ok(Some(row));
        };
        let text = text_of(alloc, text)?;
        if !is_refused(alloc, line, cause, &text) {
            return Ok(Some(row));
        }
    }
    Ok(None)
}

/// What each line is refused for.
const REFUSED: &[u8] = b"1|no equals sign|PRUNEFS \"x\"
1|no equals sign|PRUNEFS
1|no equals sign|PRUNEFS # = \"x\"
1|no equals sign|PRUNE FS = \"x\"
1|no equals sign|PRUNE\0FS = \"x\"
1|no equals sign|\"x\"
1|no equals sign|FOO
1|no opening quote|PRUNEFS = x
1|no opening quote|PRUNEFS = # \"x\"
1|no opening quote|PRUNEFS == \"x\"
1|no opening quote|=
1|no closing quote|PRUNEFS = \"x
1|no closing quote|PRUNEFS = \"x # ~\"
1|text after the value|PRUNEFS = \"x\" y
1|text after the value|PRUNEFS = \"x\"\"
1|text after the value|PRUNEFS = \"a\" PRUNENAMES = \"b\"
1|text after the value|FOO = \"x\" y
1|unknown variable|FOO = \"x\"
1|unknown variable|= \"x\"
1|unknown variable|prunefs = \"x\"
1|unknown variable|\xE9 = \"x\"
1|bad flag|PRUNE_BIND_MOUNTS = \"Yes\"
1|bad flag|PRUNE_BIND_MOUNTS = \"\"
1|bad flag|PRUNE_BIND_MOUNTS = \"1 \"
1|bad flag|PRUNE_BIND_MOUNTS = \"01\"
1|slash in a name|PRUNENAMES = \"a/b\"
1|slash in a name|PRUNENAMES = \"a b/ c\"
1|bad margin|RECENT_MARGIN = \"3601\"
1|bad margin|RECENT_MARGIN = \"00003\"
1|bad margin|RECENT_MARGIN = \"\"
1|bad margin|RECENT_MARGIN = \"3 \"
1|bad margin|RECENT_MARGIN = \"+3\"";

#[test]
fn faults_of_a_line(rt: HostRuntime) -> Result<(), Fail> {
    let wrong = first_not_refused(rt.alloc(), REFUSED)?;
    assert!(rt; wrong.is_none(), "{wrong:?}");
    Ok(())
}

/// Each refusal in a second or a third line, and the first of two.
const REFUSED_LATER: &[u8] = b"2|no equals sign|~PRUNEFS
3|no opening quote|# a~~PRUNEFS =
3|no closing quote|~~PRUNEFS = \"~\"
2|text after the value|#~PRUNEFS = \"\" \"\"
2|unknown variable|PRUNEFS = \"x\r\"\r~FOO = \"\"\r
2|variable defined twice|PRUNEFS = \"a\"~PRUNEFS = \"a\"
3|variable defined twice|PRUNEFS = \"\"~~PRUNEFS = \"x\"
2|text after the value|PRUNEFS = \"\"~PRUNEFS = \"\" b
2|variable defined twice|PRUNENAMES = \"a\"~PRUNENAMES = \"a/b\"
2|variable defined twice|RECENT_MARGIN = \"3\"~RECENT_MARGIN = \"x\"
3|variable defined twice|PRUNE_BIND_MOUNTS = \"0\"~#~PRUNE_BIND_MOUNTS = \"Yes\"
3|variable defined twice|PRUNEPATHS = \"/\"~PRUNEFS = \"\"~PRUNEPATHS = \"\"
2|bad flag|~PRUNE_BIND_MOUNTS = \"YES\"~
3|slash in a name|~~PRUNENAMES = \"/\"~
2|bad margin|~RECENT_MARGIN = \"-1\"~
1|unknown variable|FOO = \"x\"~PRUNEFS";

#[test]
fn faults_tell_their_line(rt: HostRuntime) -> Result<(), Fail> {
    let wrong = first_not_refused(rt.alloc(), REFUSED_LATER)?;
    assert!(rt; wrong.is_none(), "{wrong:?}");
    Ok(())
}

/// The first row that is answered otherwise. A row is the flag, types, names, paths, the margin and the text.
fn first_not_read(alloc: Global, rows: &'static [u8]) -> Result<Option<&'static [u8]>, Fail> {
    for row in rows.split(|byte| *byte == b'\n') {
        let mut parts = row.split(|byte| *byte == b'|');
        let (Some(flag), Some(fs), Some(names)) = (parts.next(), parts.next(), parts.next()) else {
            return Ok(Some(row));
        };
        let (Some(paths), Some(margin), Some(text)) = (parts.next(), parts.next(), parts.next())
        else {
            return Ok(Some(row));
        };
        let want = spelled(alloc, flag, fs, names, paths, margin)?;
        if block_of(alloc, &text_of(alloc, text)?)?.as_slice() != want.as_slice() {
            return Ok(Some(row));
        }
    }
    Ok(None)
}

/// What is read and then written.
const READ: &[u8] = b"0|||||
0|||||~~~
0|||||  # x
0|||||#PRUNEFS = \"x\"
0|||||\t\r\x0B\x0C\0
0|||||PRUNEFS = \"\"
0|||||PRUNEFS = \" \t \"~
0|X||||PRUNEFS=\"x\"
0|X||||PRUNEFS = \"x\"# c
0|X||||PRUNEFS = \"x\" \t# \"c\"~
0|X||||PRUNEFS = \"x\"\r~~
0|A,B||||\tPRUNEFS\t=\t\"b\ta\"\t
0|X,Y||||PRUNEFS\0=\0\"x\0y\"\0
0|#,=,A,B,C||||PRUNEFS = \"a # b = c\"
0|NFS,PROC||||PRUNEFS = \"nfs NFS Nfs proc nfs\"
0|Z,[{,\xE9||||PRUNEFS = \"\xE9 [{ z\"
0|A,A/B,AB||||PRUNEFS = \"ab a a/b\"
0|||||PRUNE_BIND_MOUNTS = \"0\"
0|||||PRUNE_BIND_MOUNTS = \"no\"
1|||||PRUNE_BIND_MOUNTS = \"1\"
1|||||PRUNE_BIND_MOUNTS = \"yes\"
0||.Git,.git|||PRUNENAMES = \".git .Git .git\"
0|||/A,/a||PRUNEPATHS = \"/a /A /a\"
0|||/,a/b||PRUNEPATHS = \"a/b a/b /\"
0||||0|RECENT_MARGIN = \"0\"
0|||||RECENT_MARGIN = \"3\"
0|||||RECENT_MARGIN = \"0003\"
0||||10|RECENT_MARGIN = \"010\"
0||||3600|RECENT_MARGIN = \"3600\"
1|NFS,PROC,TMPFS|.git,.svn|/tmp,/var/spool||# usual~PRUNE_BIND_MOUNTS = \"yes\"~PRUNEFS = \"proc tmpfs NFS\"~PRUNENAMES = \".git .svn\"~PRUNEPATHS =\t\"/var/spool /tmp\"~";

#[test]
fn values_of_a_line(rt: HostRuntime) -> Result<(), Fail> {
    let wrong = first_not_read(rt.alloc(), READ)?;
    assert!(rt; wrong.is_none(), "{wrong:?}");
    Ok(())
}

/// The lines in the order of this number, of which there are as many as orders.
fn in_order(alloc: Global, lines: &[&[u8]], number: usize) -> Result<Vec<u8>, AllocError> {
    let mut left = lines.to_vec(alloc)?;
    let mut text = Vec::new(alloc);
    let mut number = number;
    for _ in lines {
        let count = left.len();
        if count > 0 {
            text.extend_from_slice(left.remove(number % count))?;
            number /= count;
        }
    }
    Ok(text)
}

/// Whether the lines give this block in each of so many orders.
fn in_all_orders(alloc: Global, lines: &[&[u8]], orders: usize, want: &[u8]) -> Result<bool, Fail> {
    for number in 0..orders {
        let text = in_order(alloc, lines, number)?;
        if block_of(alloc, &text)?.as_slice() != want {
            return Ok(false);
        }
    }
    Ok(true)
}

#[test]
fn four_variables_stand_in_any_order(rt: HostRuntime) -> Result<(), Fail> {
    let lines = [
        b"PRUNE_BIND_MOUNTS = \"1\"\n".as_slice(),
        b"PRUNEFS = \"x\"\n".as_slice(),
        b"PRUNENAMES = \"n\"\n".as_slice(),
        b"PRUNEPATHS = \"/p\"\n".as_slice(),
    ];
    let want = spelled(rt.alloc(), b"1", b"X", b"n", b"/p", b"")?;
    assert!(rt; in_all_orders(rt.alloc(), &lines, 24, &want)?);
    Ok(())
}

#[test]
fn five_variables_stand_in_any_order(rt: HostRuntime) -> Result<(), Fail> {
    let lines = [
        b"PRUNE_BIND_MOUNTS = \"1\"\n".as_slice(),
        b"PRUNEFS = \"x\"\n".as_slice(),
        b"PRUNENAMES = \"n\"\n".as_slice(),
        b"PRUNEPATHS = \"/p\"\n".as_slice(),
        b"RECENT_MARGIN = \"10\"\n".as_slice(),
    ];
    let want = spelled(rt.alloc(), b"1", b"X", b"n", b"/p", b"10")?;
    assert!(rt; in_all_orders(rt.alloc(), &lines, 120, &want)?);
    Ok(())
}

/// A usual configuration.
const USUAL: &[u8] =
    b"# usual\nPRUNE_BIND_MOUNTS = \"yes\"\nPRUNEFS = \"proc tmpfs NFS\"\nPRUNENAMES = \".git .svn\"\nPRUNEPATHS =\t\"/var/spool /tmp\"\n";

#[test]
fn what_a_usual_configuration_prunes(rt: HostRuntime) -> Result<(), Fail> {
    let conf = read_conf(rt.alloc(), USUAL)?;
    assert!(rt; conf.bind() && conf.margin() == 3);
    assert!(rt; conf.prunes_type(b"NFS") && conf.prunes_type(b"nFs") && conf.prunes_type(b"tmpfs"));
    assert!(rt; !conf.prunes_type(b"nfs4") && !conf.prunes_type(b"") && !conf.prunes_type(b"xfs"));
    assert!(rt; conf.prunes_name(b".git") && conf.prunes_name(b".svn"));
    assert!(rt; !conf.prunes_name(b".Git") && !conf.prunes_name(b"/tmp"));
    assert!(rt; conf.prunes_path(b"/tmp") && conf.prunes_path(b"/var/spool"));
    assert!(rt; !conf.prunes_path(b"/tmp/") && !conf.prunes_path(b"/TMP"));
    Ok(())
}

#[test]
fn sizes_of_blocks(rt: HostRuntime) -> Result<(), Fail> {
    for (text, len) in [
        (b"".as_slice(), 54),
        (b"PRUNENAMES = \".git\"".as_slice(), 59),
        (b"RECENT_MARGIN = \"10\"".as_slice(), 72),
        (b"RECENT_MARGIN = \"0\"".as_slice(), 71),
        (USUAL, 95),
    ] {
        assert_eq!(rt; block_of(rt.alloc(), text)?.len(), len);
    }
    Ok(())
}

#[test]
fn a_path_is_added_to_the_defaults(rt: HostRuntime) -> Result<(), Fail> {
    let mut changes = no_changes(rt.alloc());
    changes.add_paths = Words::split(rt.alloc(), b"/")?;
    let conf = apply(rt.alloc(), Conf::defaults(rt.alloc()), &changes)?;
    assert_eq!(rt; conf_block(rt.alloc(), &conf)?.as_slice().len(), 56);
    Ok(())
}

/// Flag, margin, types and paths are replaced, the paths by none; types and names are added.
fn many_changes(alloc: Global) -> Result<Changes, AllocError> {
    let mut changes = no_changes(alloc);
    changes.bind = Some(false);
    changes.margin = Some(0);
    changes.fs = Some(Words::split(alloc, b"ext4 x")?);
    changes.paths = Some(Words::none(alloc));
    changes.add_fs = Words::split(alloc, b"Nfs ext4\nb")?;
    changes.add_names = Words::split(alloc, b"CVS .git")?;
    Ok(changes)
}

#[test]
fn changes_replace_and_then_add(rt: HostRuntime) -> Result<(), Fail> {
    let changes = many_changes(rt.alloc())?;
    let conf = apply(rt.alloc(), read_conf(rt.alloc(), USUAL)?, &changes)?;
    let want = spelled(
        rt.alloc(),
        b"0",
        b"B,EXT4,NFS,X",
        b".git,.svn,CVS",
        b"",
        b"0",
    )?;
    assert_eq!(rt; conf_block(rt.alloc(), &conf)?.as_slice(), want.as_slice());
    Ok(())
}

/// The words of a text, each with a comma behind it.
fn with_commas(alloc: Global, text: &[u8]) -> Result<Vec<u8>, AllocError> {
    let words = Words::split(alloc, text)?;
    let mut joined = Vec::new(alloc);
    for word in &words.list(alloc)? {
        joined.extend_from_slice(word)?;
        joined.push(b',')?;
    }
    Ok(joined)
}

#[test]
fn words_in_order(rt: HostRuntime) -> Result<(), Fail> {
    let joined = with_commas(rt.alloc(), b"\nb a\tb\0#x\r\n\"y\"\x0B\x0C\x85z ")?;
    assert_eq!(rt; joined.as_slice(), b"b,a,b,#x,\"y\",\x85z,".as_slice());
    assert!(rt; !Words::split(rt.alloc(), b"a b")?.have_slash());
    assert!(rt; Words::split(rt.alloc(), b"a b/c")?.have_slash());
    Ok(())
}

#[test]
fn flags_and_margins(rt: HostRuntime) {
    assert_eq!(rt;
        (flag_word(b"no"), flag_word(b"1")),
        (Some(false), Some(true))
    );
    assert_eq!(rt;
        (margin_word(b"0003"), margin_word(b"3600")),
        (Some(3), Some(3600))
    );
    assert!(rt; flag_word(b"Yes").is_none() && margin_word(b"3601").is_none());
}

// A mebibyte of one byte: white space, newlines and a comment say nothing, all else is no assignment.
#[test]
fn a_mebibyte_of_one_byte(rt: HostRuntime) -> Result<(), AllocError> {
    for (byte, cause) in [
        (b'x', Some(ConfCause::NoEquals)),
        (b'=', Some(ConfCause::NoQuote)),
        (128, Some(ConfCause::NoEquals)),
        (b'#', None),
        (b'\n', None),
        (0, None),
    ] {
        let text = vec![in rt.alloc(); byte; 1_048_576]?;
        let answer = read_conf(rt.alloc(), &text).err().map(|fault| fault.cause);
        assert_eq!(rt; answer, cause);
    }
    Ok(())
}
