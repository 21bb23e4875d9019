// A block by itself, as a caller of the library runs it, over values of the library's own.
ghost use Rattle.std.specs.Prelude.{◌≤◌, length};
ghost use Rattle.cow_cell.specs.Opens.{Opens};
ghost use Rattle.cow_run.specs.Runs.{IsRead};

use cow_cell::{Holder, Opening, Stock};
use cow_crew::OpenGate;
use cow_eval::Env;
use cow_item::Atom;
use cow_kinds::Value;
use cow_model::Script;
use cow_script::parse;
use cow_tasks::{first_unbuilt, run_block};
use std::alloc::Global;
use std::marker::Brand;
use std::test::Fail;
use std::thread::Threads;

/// Row `append-to-copy`.
const ROW: &[u8] = b"let a = array 1 2 3\nlet b = a\nappend b 4\nshow a\nshow b\n";

const ROW_TEXT: &[u8] = b"[1, 2, 3]\n[1, 2, 3, 4]\n";

/// What the statements of a script print as a block, over a new stock and an empty environment. `None` where
/// one isn't built, or memory ran out.
fn text_of<R: Threads + Sync, Q: Stock + Send + Sync>(
    rt: &R,
    alloc: Global,
    opening: Opening,
    script: &Script,
    workers: u32,
) -> Option<Vec<u8>>
    requires opens { Opens Q.Stock opening }
    requires read { IsRead script.now.statements }
    requires workers { 1 ≤ workers }
{
    if first_unbuilt(script).is_some() {
        return None;
    }
    let mut h = Holder::<Q>::fresh(opening);
    let mut env = Env::<Value<Atom<Q>, Q>, Q>::new(alloc);
    let mut text = Vec::new(alloc);
    let block = script.statements.as_slice();
    let mut rules = Vec::new(alloc);
    let ran = run_block(
        rt, alloc, block, &mut env, &mut rules, &OpenGate, workers, &mut h, &mut text,
    );
    env.end(&mut h);
    ran.ok()?;
    Some(text)
}

/// What the bytes of a script print so.
fn printed<R: Threads + Sync>(rt: &R, alloc: Global, bytes: &[u8], workers: u32) -> Option<Vec<u8>>
    requires workers { 1 ≤ workers }
{
    if bytes.len() > 1_048_576 {
        return None;
    }
    let Ok(script) = parse(alloc, bytes) else {
        return None;
    };
    text_of::<R, Brand>(rt, alloc, Opening::new(), &script, workers)
}

#[test]
fn a_block_prints_its_text_on_any_number_of_workers(rt: HostRuntime) -> Result<(), Fail> {
    for workers in [1u32, 2, 8, 64] {
        let text = printed(&rt, rt.alloc(), ROW, workers);
        assert!(rt;
            text.is_some_and(|text| text.as_slice() == ROW_TEXT),
            "on {workers}"
        );
    }
    Ok(())
}
