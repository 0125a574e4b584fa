//! Rows of words, with what they ask for.

use crate::{Settings, WordsFault, read_words};
use std::alloc::Global;
use std::test::Fail;

const PLAIN: Settings<'static> = Settings {
    budget: 100_000,
    cache: 32,
    stats: false,
    keep_going: false,
    drill: None,
    file: None,
};

/// Whether the words ask for this, or are refused where this is none.
fn asks(alloc: Global, words: &[&str], want: Option<Settings>) -> Result<bool, Fail> {
    let mut owned = Vec::new(alloc);
    for word in words {
        owned.push(String::from_str(alloc, word)?)?;
    }
    Ok(match read_words(alloc, owned.as_slice()) {
        Ok(settings) => want == Some(settings),
        Err(WordsFault::Usage) => want.is_none(),
        Err(WordsFault::Memory) => false,
    })
}

#[test]
fn accepted(rt: HostRuntime) -> Result<(), Fail> {
    let whole = Settings {
        budget: 1_000_000,
        keep_going: true,
        file: Some("é"),
        ..PLAIN
    };
    let hidden = Settings {
        file: Some("--stats"),
        ..PLAIN
    };
    let memos = Settings {
        cache: 0,
        stats: true,
        ..PLAIN
    };
    let drill = Settings {
        drill: Some(100_000),
        ..PLAIN
    };
    let least = Settings {
        stats: true,
        keep_going: true,
        drill: Some(1),
        ..PLAIN
    };
    let rows: [(&[&str], Settings); 8] = [
        (&[], PLAIN),
        (&["--"], PLAIN),
        (&["--budget=1000000", "é", "--keep-going", "--"], whole),
        (&["--", "--stats"], hidden),
        (&["--budget", "0000100000"], PLAIN),
        (&["--stats", "--cache=0"], memos),
        (&["--drill", "0000100000"], drill),
        (&["--keep-going", "--drill=1", "--stats"], least),
    ];
    for (words, want) in rows {
        assert!(rt; asks(rt.alloc(), words, Some(want))?);
    }
    Ok(())
}

#[test]
fn refused(rt: HostRuntime) -> Result<(), Fail> {
    let rows: [&[&str]; 23] = [
        &[""],
        &["-"],
        &["--", "-"],
        &["--", "--"],
        &["a", "b"],
        &["-é"],
        &["--help"],
        &["--stat"],
        &["--stats="],
        &["--stats", "--stats"],
        &["--budget"],
        &["--budget="],
        &["--budget", "-1"],
        &["--budget", "--", "1"],
        &["--budget", "1", "--budget=1"],
        &["--budget", "1000001"],
        &["--cache", "00000000001"],
        &["--cache", "65"],
        &["--drill", "0"],
        &["--drill", "100001"],
        &["--drill", "3", "--drill", "3"],
        &["--drill", "3", "f"],
        &["--drill=3", "--", "f"],
    ];
    for words in rows {
        assert!(rt; asks(rt.alloc(), words, None)?);
    }
    Ok(())
}
