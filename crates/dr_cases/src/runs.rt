//! The runs of a case.

use crate::case::{Case, Failing, Hold};
use crate::each::Each;
use crate::ended::{Ended, Given, outcome};
use crate::setting::Setting;
use dr_case_lines::{Broken, Place, Tally, words_of};
use std::alloc::Global;
use std::sync::Wait;
use std::thread::Threads;

/// More calls of one thing than a case makes.
const MANY_CALLS: u64 = 10_000;

/// The words of a case behind those of a way, and the program's name before them.
fn all_words(alloc: Global, case: &Case, way: &str) -> Result<Vec<String>, Broken> {
    let mut words = words_of(alloc, "dremel")?;
    for word in way.split_whitespace() {
        words.push(String::from_str(alloc, word)?)?;
    }
    for word in &case.words {
        words.push(word.clone()?)?;
    }
    Ok(words)
}

/// How a case ends whose words these are.
fn run_once<R: Threads + Wait + Sync>(
    rt: &R,
    alloc: Global,
    setting: &mut Setting,
    case: &Case,
    words: &[String],
) -> Result<Ended, Broken> {
    let given = Given {
        words,
        input: &setting.input,
        failing: &case.failing,
        dead: &case.dead,
        hold: case.hold,
        most: case.most,
    };
    outcome(rt, alloc, given, &mut setting.keeper, &setting.shelf)
}

/// How the same ends where this call fails alone, over a keeper of its own.
fn run_failing<R: Threads + Wait + Sync>(
    rt: &R,
    alloc: Global,
    setting: &Setting,
    case: &Case,
    words: &[String],
    each: &Each,
    call: u64,
) -> Result<Ended, Broken> {
    let mut failing = Failing::none(alloc);
    failing.set(each.thing, numbers(alloc, call)?);
    let behind = failing.keeper.first().map_or(0, |call| *call);
    let mut keeper = setting.keeper_of_same(behind)?;
    let given = Given {
        words,
        input: &setting.input,
        failing: &failing,
        dead: &case.dead,
        hold: Hold::Nobody,
        most: case.most,
    };
    outcome(rt, alloc, given, &mut keeper, &setting.shelf)
}

/// One number.
fn numbers(alloc: Global, number: u64) -> Result<Vec<u64>, Broken> {
    let mut numbers = Vec::new(alloc);
    numbers.push(number)?;
    Ok(numbers)
}

/// Has one call of a thing fail after another until the run makes no such call, and tells the first that ends in
/// another way than is said.
fn try_each<R: Threads + Wait + Sync>(
    rt: &R,
    alloc: Global,
    setting: &Setting,
    case: &Case,
    words: &[String],
    each: &Each,
    place: Place<'_>,
    tally: &mut Tally,
) -> Result<(), Broken> {
    tally.count();
    for call in 1..MANY_CALLS {
        let ended = run_failing(rt, alloc, setting, case, words, each, call)?;
        if !ended.has_made(each.thing, call) {
            return if call == 1 {
                tally.fail(place, "no call is made that could fail")
            } else {
                Ok(())
            };
        }
        if !each.ends_so(case, &ended) {
            tally.fail(place, "ends in another way where a call fails")?;
            return tally.tell(words, ended.told(alloc)?.as_str());
        }
    }
    tally.fail(place, "calls never end")
}

/// Runs a case in a way, tells where it ends in another way than it says, and gives what it printed. A query of which
/// it isn't said what it prints says from here on what it printed.
pub fn try_case<R: Threads + Wait + Sync>(
    rt: &R,
    alloc: Global,
    setting: &mut Setting,
    case: &mut Case,
    way: &str,
    place: Place<'_>,
    tally: &mut Tally,
) -> Result<Vec<u8>, Broken> {
    let words = all_words(alloc, case, way)?;
    tally.count();
    let ended = run_once(rt, alloc, setting, case, &words)?;
    if case.is_asked && !case.has_out {
        case.has_out = true;
        case.out = ended.out.clone()?;
    }
    let ends_so = ended.status == case.status && ended.out == case.out && ended.err == case.err;
    if !ends_so {
        tally.fail(place, "ends in another way")?;
        tally.tell(&words, ended.told(alloc)?.as_str())?;
    }
    if !ended.was_held {
        tally.fail(place, "a worker waits in vain")?;
    }
    for each in &case.each {
        try_each(rt, alloc, setting, case, &words, each, place, tally)?;
    }
    Ok(ended.out.clone()?)
}
