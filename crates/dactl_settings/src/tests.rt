use crate::{Settings, UsageFault, read_settings};
use std::alloc::{AllocError, Global};

const USUAL: Settings = Settings {
    workers: 4,
    budget: 1_000_000,
    nodes: 200_000,
    trace: false,
    check: false,
    sample: None,
    verify: false,
    resume: false,
    fun: false,
    steal: false,
};

// The words between the bars of a line, behind the program's name.
fn words_of(alloc: Global, line: &str) -> Result<Vec<String>, AllocError> {
    let mut words = Vec::new(alloc);
    words.push(String::from_str(alloc, "dactl")?)?;
    for word in line.split('|') {
        words.push(String::from_str(alloc, word)?)?;
    }
    Ok(words)
}

#[test]
fn words_have_their_settings(rt: HostRuntime) -> Result<(), AllocError> {
    for (line, wanted) in [
        ("--", USUAL),
        (
            "--workers|1",
            Settings {
                workers: 1,
                ..USUAL
            },
        ),
        (
            "--workers|16",
            Settings {
                workers: 16,
                ..USUAL
            },
        ),
        ("--budget|1", Settings { budget: 1, ..USUAL }),
        (
            "--budget|4000000",
            Settings {
                budget: 4_000_000,
                ..USUAL
            },
        ),
        ("--nodes|1", Settings { nodes: 1, ..USUAL }),
        (
            "--nodes|2000000",
            Settings {
                nodes: 2_000_000,
                ..USUAL
            },
        ),
        (
            "--sample|1",
            Settings {
                sample: Some(1),
                ..USUAL
            },
        ),
        (
            "--sample|20000",
            Settings {
                sample: Some(20_000),
                ..USUAL
            },
        ),
        ("--nodes=5", Settings { nodes: 5, ..USUAL }),
        (
            "--nodes|00000000000000000005",
            Settings { nodes: 5, ..USUAL },
        ),
        (
            "--trace",
            Settings {
                trace: true,
                ..USUAL
            },
        ),
        (
            "--check|--",
            Settings {
                check: true,
                ..USUAL
            },
        ),
        (
            "--verify",
            Settings {
                verify: true,
                ..USUAL
            },
        ),
        (
            "--resume",
            Settings {
                resume: true,
                ..USUAL
            },
        ),
        ("--fun", Settings { fun: true, ..USUAL }),
        (
            "--steal",
            Settings {
                steal: true,
                ..USUAL
            },
        ),
        (
            "--check|--nodes|9|--trace|--verify|--steal|--workers=2|--sample|8|--budget|7",
            Settings {
                workers: 2,
                budget: 7,
                nodes: 9,
                trace: true,
                check: true,
                sample: Some(8),
                verify: true,
                resume: false,
                fun: false,
                steal: true,
            },
        ),
        (
            "--steal|--resume|--fun|--sample|1|--check|--trace|--workers|1",
            Settings {
                workers: 1,
                trace: true,
                check: true,
                sample: Some(1),
                resume: true,
                fun: true,
                steal: true,
                ..USUAL
            },
        ),
    ] {
        let words = words_of(rt.alloc(), line)?;
        assert_eq!(rt;
            read_settings(rt.alloc(), words.as_slice()),
            Ok(wanted),
            "{line}"
        );
    }
    Ok(())
}

#[test]
fn first_word_is_not_judged(rt: HostRuntime) -> Result<(), AllocError> {
    let mut words = Vec::new(rt.alloc());
    assert_eq!(rt; read_settings(rt.alloc(), words.as_slice()), Ok(USUAL));
    words.push(String::from_str(rt.alloc(), "--help")?)?;
    assert_eq!(rt; read_settings(rt.alloc(), words.as_slice()), Ok(USUAL));
    Ok(())
}

#[test]
fn texts_outside_their_range_are_no_numbers(rt: HostRuntime) -> Result<(), AllocError> {
    for line in [
        "--workers|0",
        "--workers|17",
        "--budget|0",
        "--budget|4000001",
        "--nodes|0",
        "--nodes|2000001",
        "--sample|0",
        "--sample|20001",
        "--nodes|18446744073709551617",
        "--nodes=",
        "--nodes|+1",
        "--nodes=-1",
        "--nodes| 1",
        "--nodes|1 ",
        "--nodes|1_000",
        "--nodes|\u{0661}",
        "--trace|--sample|x|--workers|2",
        "--verify|--resume|--nodes|0",
    ] {
        let words = words_of(rt.alloc(), line)?;
        assert_eq!(rt;
            read_settings(rt.alloc(), words.as_slice()),
            Err(UsageFault::Number),
            "{line}"
        );
    }
    Ok(())
}

#[test]
fn other_words_are_refused(rt: HostRuntime) -> Result<(), AllocError> {
    for line in [
        "",
        "-",
        "text",
        "--|text",
        "--trace|text",
        "-h",
        "--help",
        "--version",
        "help",
        "--Trace",
        "--trac",
        "--traces",
        "--trace=x",
        "--trace=",
        "--trace|--trace",
        "--nodes",
        "--nodes|--trace",
        "--nodes|-1",
        "--nodes|5|6",
        "--nodes|5|--nodes=5",
        "--workers|17|--loud",
        "--Fun",
        "--fun|--fun",
        "--verify|--resume|--loud",
    ] {
        let words = words_of(rt.alloc(), line)?;
        assert_eq!(rt;
            read_settings(rt.alloc(), words.as_slice()),
            Err(UsageFault::Words),
            "{line}"
        );
    }
    Ok(())
}

#[test]
fn only_one_of_verify_and_resume_stands(rt: HostRuntime) -> Result<(), AllocError> {
    for line in [
        "--verify|--resume",
        "--resume|--check|--verify|--nodes|5",
        "--fun|--verify|--resume",
    ] {
        let words = words_of(rt.alloc(), line)?;
        assert_eq!(rt;
            read_settings(rt.alloc(), words.as_slice()),
            Err(UsageFault::Both),
            "{line}"
        );
    }
    Ok(())
}
