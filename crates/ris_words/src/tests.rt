use crate::{WordsError, make_script, read_analyses, read_words};
use ris_base::{Job, Specs, Words};
use std::alloc::Global;
use std::test::Fail;

/// The words of a line, with one blank between two of them.
fn words_of(alloc: Global, line: &str) -> Result<Words, Fail> {
    let mut words = Words::new(alloc);
    for word in line.split(' ') {
        words.push(word)?;
    }
    Ok(words)
}

/// The kind and the root of each analysis.
fn list_text(alloc: Global, specs: &Specs) -> Result<String, Fail> {
    let mut text = String::new(alloc);
    for k in 0..specs.len() {
        let spec = specs.at(k);
        let item = format!(in alloc; " {:?}:{}", spec.kind, spec.root)?;
        text.push_str(item.as_str())?;
    }
    Ok(text)
}

/// What is read of a line, in short.
fn job_text(alloc: Global, line: &str) -> Result<String, Fail> {
    let words = words_of(alloc, line)?;
    let text = match read_words(alloc, &words) {
        Ok(
            Job::Replay {
                threads,
                workers,
                specs,
            },
        ) => {
            let list = list_text(alloc, &specs)?;
            format!(in alloc; "replay {threads} {workers}{list}")?
        }
        Ok(
            Job::Demo {
                seed,
                size,
                workers,
            },
        ) => format!(in alloc; "demo {seed} {size} {workers}")?,
        Err(error) => format!(in alloc; "{error}")?,
    };
    Ok(text)
}

#[test]
fn words_say_jobs(rt: HostRuntime) -> Result<(), Fail> {
    for (line, wanted) in [
        ("replay --analyses wcc", "replay false 1 Wcc:0"),
        ("replay --analyses=bfs:3", "replay false 1 Bfs:3"),
        (
            "replay --threads --workers 64 --analyses sssp:4194303,sswp:7",
            "replay true 64 Sssp:4194303 Sswp:7",
        ),
        (
            "replay --analyses wcc,wcc --workers=1 --threads",
            "replay true 1 Wcc:0 Wcc:0",
        ),
        (
            "replay --workers 00000000000000000007 --analyses=bfs:0000007",
            "replay false 7 Bfs:7",
        ),
        ("demo 0", "demo 0 2000 1"),
        (
            "demo 4294967295 --size 1000000 --workers 64",
            "demo 4294967295 1000000 64",
        ),
        ("demo 42 --workers=2 --size=1", "demo 42 1 2"),
        (
            "demo 00000000004294967295 --size=00000000000001000000",
            "demo 4294967295 1000000 1",
        ),
    ] {
        let found = job_text(rt.alloc(), line)?;
        assert_eq!(rt; found.as_str(), wanted, "{line}");
    }
    Ok(())
}

#[test]
fn other_words_of_replay_are_usage(rt: HostRuntime) -> Result<(), Fail> {
    for line in [
        "replay",
        "replay ",
        "replay wcc",
        "replay  --analyses wcc",
        "replay --analyses wcc ",
        "replay --analyses wcc more",
        "replay --analyses",
        "replay --analyses ",
        "replay --analyses=",
        "replay --analyses -wcc",
        "replay --analyses=--threads",
        "replay --analyses wcc --analyses wcc",
        "replay --analyses wcc --analyses=wcc",
        "replay --analyses=wcc,wcc,wcc,wcc,wcc",
        "replay --threads --threads --analyses wcc",
        "replay --threads=true --analyses wcc",
        "replay --threads= --analyses wcc",
        "replay --threads true --analyses wcc",
        "replay --threads",
        "replay --workers 1 --workers 1 --analyses wcc",
        "replay --workers=1 --workers 1 --analyses wcc",
        "replay --workers 0 --analyses wcc",
        "replay --workers 65 --analyses wcc",
        "replay --workers=0 --analyses wcc",
        "replay --workers=65 --analyses wcc",
        "replay --workers 000000000000000000001 --analyses wcc",
        "replay --workers 18446744073709551617 --analyses wcc",
        "replay --workers=-1 --analyses wcc",
        "replay --workers -1 --analyses wcc",
        "replay --workers --threads --analyses wcc",
        "replay --workers  --analyses wcc",
        "replay --workers= --analyses wcc",
        "replay --workers=+1 --analyses wcc",
        "replay --workers==1 --analyses wcc",
        "replay --analyses wcc --workers",
        "replay --size 5 --analyses wcc",
        "replay -workers 1 --analyses wcc",
        "replay --work 1 --analyses wcc",
        "replay --Workers 1 --analyses wcc",
        "replay --workers1 --analyses wcc",
        "replay -- --analyses wcc",
        "replay --help",
        "replay --version",
        "replay --analyses wcc --phase locks",
        "replay demo --analyses wcc",
    ] {
        let found = job_text(rt.alloc(), line)?;
        assert_eq!(rt; found.as_str(), "usage", "{line}");
    }
    Ok(())
}

#[test]
fn other_words_are_usage(rt: HostRuntime) -> Result<(), Fail> {
    for line in [
        "",
        " ",
        "Replay --analyses wcc",
        "replays --analyses wcc",
        "--analyses wcc",
        "--analyses wcc replay",
        " replay --analyses wcc",
        "leave",
        "help",
        "--help",
        "demo",
        "demo ",
        "demo  7",
        "demo --size 5",
        "demo --size 5 7",
        "demo 7 8",
        "demo 7 ",
        "demo 4294967296",
        "demo 18446744073709551616",
        "demo 000000000000000000007",
        "demo -1",
        "demo +1",
        "demo 7a",
        "demo 7 --size 0",
        "demo 7 --size 1000001",
        "demo 7 --size=0",
        "demo 7 --size=1000001",
        "demo 7 --size 000000000000000000001",
        "demo 7 --size -1",
        "demo 7 --size",
        "demo 7 --size=",
        "demo 7 --size= 5",
        "demo 7 --size 5 --size=5",
        "demo 7 --workers 0",
        "demo 7 --workers 65",
        "demo 7 --workers=2 --workers=2",
        "demo 7 --threads",
        "demo 7 --analyses wcc",
        "demo 7 --seed 8",
    ] {
        let found = job_text(rt.alloc(), line)?;
        assert_eq!(rt; found.as_str(), "usage", "{line}");
    }
    let none = Words::new(rt.alloc());
    assert_eq!(rt;
        read_words(rt.alloc(), &none).err(),
        Some(WordsError::Usage)
    );
    Ok(())
}

#[test]
fn lists_say_analyses(rt: HostRuntime) -> Result<(), Fail> {
    for (list, wanted) in [
        ("wcc", " Wcc:0"),
        ("bfs:0", " Bfs:0"),
        ("sssp:4194303", " Sssp:4194303"),
        ("sswp:0000000", " Sswp:0"),
        ("bfs:1,bfs:1,bfs:0000001,bfs:1", " Bfs:1 Bfs:1 Bfs:1 Bfs:1"),
        ("wcc,sswp:3,sssp:2,bfs:1", " Wcc:0 Sswp:3 Sssp:2 Bfs:1"),
    ] {
        let specs = read_analyses(rt.alloc(), list)?;
        let found = list_text(rt.alloc(), &specs)?;
        assert_eq!(rt; found.as_str(), wanted, "{list}");
    }
    for list in [
        "",
        ",",
        "wcc,",
        ",wcc",
        "bfs:1,,wcc",
        "wcc,wcc,wcc,wcc,wcc",
        "bfs",
        "bfs:",
        "bfs:4194304",
        "bfs:00000001",
        "sssp:9999999",
        "sswp:4194304",
        "bfs:-1",
        "bfs:+1",
        "bfs: 1",
        "bfs:1 ",
        "bfs:x",
        "bfs:1:2",
        "BFS:1",
        "bfs;1",
        "bfs:1;wcc",
        "wcc:0",
        "wcc:",
        "Wcc",
        "-wcc",
        "all",
    ] {
        assert_eq!(rt;
            read_analyses(rt.alloc(), list).err(),
            Some(WordsError::Usage),
            "{list}"
        );
    }
    Ok(())
}

#[test]
fn scripts_are_those_of_another_program(rt: HostRuntime) -> Result<(), Fail> {
    for (seed, size, length, begin, end) in [
        (
            0,
            1,
            78_469,
            "risgraph,1,1000,8\nbase,51,783,94\nbase,462,435,17\nbase,262,586,47\n\
             base,49,692,68\n",
            "0,adde,833,776,84\n",
        ),
        (
            42,
            20,
            78_742,
            "risgraph,1,1000,8\nbase,783,97,24\nbase,955,955,66\n",
            "0,modified,last,2\n1,dele,314,261,39\n2,adde,943,433,34\n3,addv,847\n\
             4,value,last,0,829\n5,adde,878,244,7\n6,dele,244,781,36\n7,dele,28,459,67\n\
             0,adde,874,273,52\n1,adde,839,502,64\n2,addv,921\n3,value,last,2,886\n\
             4,modified,last,2\n5,adde,972,558,15\n6,modified,last,1\n7,adde,511,193,29\n\
             0,dele,274,80,88\n1,addv,445\n2,dele,569,560,52\n3,dele,290,570,70\n",
        ),
        (
            42,
            2_000,
            112_891,
            "risgraph,1,1000,8\nbase,783,97,24\nbase,955,955,66\n",
            "5,adde,322,649,64\n6,addv,442\n7,modified,last,1\n",
        ),
        (
            4294967295,
            1_000_000,
            17_228_662,
            "risgraph,1,1000,8\nbase,218,594,65\nbase,504,52,93\n",
            "0,value,last,1,607\n1,adde,614,958,38\n2,addv,87\n3,value,last,1,763\n\
             4,dele,369,796,12\n5,dele,342,544,60\n6,adde,387,759,10\n7,adde,922,517,74\n",
        ),
    ] {
        assert!(rt; 1 <= size && size <= 1_000_000);
        let script = make_script(rt.alloc(), seed, size)?.into_vec();
        assert_eq!(rt; script.len(), length, "{seed} {size}");
        assert!(rt;
            script.as_slice().starts_with(begin.as_bytes()),
            "{seed} {size}"
        );
        assert!(rt;
            script.as_slice().ends_with(end.as_bytes()),
            "{seed} {size}"
        );
    }
    Ok(())
}
