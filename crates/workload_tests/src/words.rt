// What the words of a command line ask for.
use pool_engine::*;
use pool_text::{OutOfMemory, Text};
use std::alloc::Global;
use std::process::Abort;
use std::test::Fail;

/// Words with a bar between two, and what they ask for behind an arrow.
const WORDS: &'static str = "\
--mail|a=1→pool
--mail|a=1|--mail|A=1→pool
--mail|--mail=x=y→pool
--mail→bad
--mail|x→bad
--mail|x=→bad
--mail|=x→bad
--mail|a b=x→bad
--mail|a=1|--mail|a=2→bad
--mail|a=b|--wire|1|1→bad
--Mail|a=b→bad
--generate|4→workload 4
--generate|1→workload 1
--generate|2000→workload 2000
--mail|a=1|--generate|8→workload 8
--generate|8|--mail|a=1→workload 8
--mail|a=1|--generate|8|--mail|b=1→workload 8
--mail|--generate=8→pool
--mail|--generate=8|--generate|9→workload 9
--wire|1|2→wire 1 2
--mail|a=--generate→pool
--generate→bad
--generate|→bad
--generate|0→bad
--generate|2001→bad
--generate|08→bad
--generate|+8→bad
--generate| 8→bad
--generate|8x→bad
--generate=8→bad
--GENERATE|8→bad
--generate|8|--generate|8→bad
--generate|8|--mail|a=1|--generate|9→bad
--generate|8|--wire|1|1→bad
--wire|1|1|--generate|8→bad
--mail|--generate|8→bad
--generate|--mail|a=1→bad
--mail|a=1|--generate|8|--mail|a=2→bad
";

fn asked_of(alloc: Global, words: &str) -> Result<Asked, OutOfMemory> {
    let mut texts = Vec::new(alloc);
    for word in words.split('|') {
        texts.push(Text::from_bytes(alloc, word.as_bytes())?)?;
    }
    Ok(read_words(&texts))
}

fn told(alloc: Global, asked: Asked) -> Result<String, Fail> {
    Ok(match asked {
        Asked::Pool => format!(in alloc; "pool")?,
        Asked::Bad => format!(in alloc; "bad")?,
        Asked::Workload { machines } => format!(in alloc; "workload {machines}")?,
        Asked::Wire {
            resources,
            customers,
        } => format!(in alloc; "wire {resources} {customers}")?,
    })
}

fn assert_asked(rt: &impl Abort, alloc: Global, words: &str, wanted: &str) -> Result<(), Fail> {
    let asked = asked_of(alloc, words)?;
    let found = told(alloc, asked)?;
    assert_eq!(rt; found.as_str(), wanted, "{words}");
    Ok(())
}

#[test]
fn words_ask_for_a_pool_a_workload_or_a_wire(rt: HostRuntime) -> Result<(), Fail> {
    for row in WORDS.lines() {
        match row.split_once("→") {
            Some((words, wanted)) => assert_asked(&rt, rt.alloc(), words, wanted)?,
            None => assert!(rt; false, "{row}"),
        }
    }
    Ok(())
}
