//! The commands: what each answers.

ghost use Rattle.std.specs.Prelude.{◌≡◌, ◌≢◌, ◌≤◌, length, Err, None, Some, MatchOption, IfSome, false, map, string_bytes, IfOk, IfErr, OnOk};
ghost use Rattle.dr_commands.specs.Commands.{meaning_of, command_view};
ghost use Rattle.dr_words.specs.Words.{Taken, meant};
ghost use Rattle.dr_top.specs.NamedFile.{RefusesLonger};
ghost use Rattle.dr_top.specs.Printed.{printed};
ghost use Rattle.dr_top.specs.World.{IsFileOf, lent};
ghost use Rattle.dr_top.specs.Keeping.{IsUnput};
ghost use Rattle.dr_top.specs.Stops.{StopsWith, IsReadBy};
ghost use Rattle.dr_top.specs.Answers.{Finishes, Replies, StopsMeant, AsksMeant, LeavesUnread, LeavesUnput, LeavesUnasked, LeavesLinksBy, AsksEach};
ghost use Rattle.dr_top.specs.Ends.{ForMeant};

mod ask;
mod dump;
mod explain;
mod fsm;
mod gen_lines;
mod load;
mod query;
mod session;
mod show_schema;
mod stripe;
mod trial;

use crate::named_file::{Kind, read_named};
use crate::output::Output;
use crate::reply::Reply;
use crate::stop::Stop;
use dr_commands::Command;
use dr_outside::{Keeper, Link, Source};
use dr_words::read_words;
use std::alloc::Global;
use std::sync::Wait;
use std::thread::Threads;

/// The path of the file that a command names, if it names one, and what that is read as.
pub fn named_file(command: &Command) -> Option<(&str, Kind)>
    ensures path { MatchOption result ((meaning_of (command_view command.now)).file ≡ None)
        (λ n. (meaning_of (command_view command.now)).file ≡ Some n.0.now) }
    ensures longer { IfSome result (λ n. RefusesLonger (meaning_of (command_view command.now)) n.1) }
{
    match command {
        Command::Load(load) => Some((load.schema.as_str(), Kind::Schema)),
        Command::Query(query) => Some((query.table.as_str(), Kind::Table)),
        Command::Ask(ask) => Some((ask.schema.as_str(), Kind::Schema)),
        Command::Dump(dump) => Some((dump.table.as_str(), Kind::Table)),
        Command::Stripe(stripe) => Some((stripe.schema.as_str(), Kind::Schema)),
        Command::Fsm(fsm) => Some((fsm.schema.as_str(), Kind::Schema)),
        Command::ShowSchema(_) => None,
        Command::Explain(explain) => Some((explain.schema.as_str(), Kind::Schema)),
        Command::Gen(_) => None,
        Command::Trial(_) => None,
        Command::Session(session) => Some((session.schema.as_str(), Kind::Schema)),
    }
}

/// What a command that doesn't talk prints, of the file that it names.
///
/// Errors: its first refusal; the keeper or the source failed; what is left; want of memory.
fn command_answer<R: Threads + Wait + Sync, S: Source, K: Keeper, L: Link + Send>(
    rt: &R,
    alloc: Global,
    command: &Command,
    file: &[u8],
    source: &mut S,
    keeper: &mut K,
    links: &mut [L],
) -> Result<Output, Stop>
    requires links { 16 ≤ length links.old }
    requires silent { (meaning_of (command_view command.now)).talks ≡ false }
    requires file { IsFileOf (meaning_of (command_view command.now)) (K.shows keeper.old) file.now }
    ensures text { IfOk result (λ t. Finishes (meaning_of (command_view command.now))
        (lent (S.shows source.old) (K.shows keeper.old) (map L.shows links.old))
        (lent (S.shows source.new) (K.shows keeper.new) (map L.shows links.new)) (printed t)) }
    ensures read { OnOk result (IsReadBy (meaning_of (command_view command.now)).reads_input (S.shows source.old)
        (S.shows source.new)) }
    ensures source_calm { OnOk result ((S.shows source.new).faults ≡ (S.shows source.old).faults) }
    ensures keeper_calm { OnOk result ((K.shows keeper.new).faults ≡ (K.shows keeper.old).faults) }
    ensures stops { IfErr result (StopsWith (meaning_of (command_view command.now))
        (lent (S.shows source.old) (K.shows keeper.old) (map L.shows links.old))
        (lent (S.shows source.new) (K.shows keeper.new) (map L.shows links.new))) }
    ensures kept { (meaning_of (command_view command.now)).puts_files ≡ false
        → IsUnput (K.shows keeper.old) (K.shows keeper.new) }
    ensures asked { (K.shows keeper.new).asked ≡ (K.shows keeper.old).asked }
    ensures unread { (meaning_of (command_view command.now)).reads_input ≡ false → S.shows source.new
        ≡ S.shows source.old }
    ensures links { LeavesLinksBy (meaning_of (command_view command.now)).links (map L.shows links.old)
        (map L.shows links.new) }
    ensures reads { AsksEach (Some (meaning_of (command_view command.now)))
        (lent (S.shows source.old) (K.shows keeper.old) (map L.shows links.old))
        (lent (S.shows source.new) (K.shows keeper.new) (map L.shows links.new)) }
{
    match command {
        Command::Load(load) => load::answer(alloc, load, file, source, keeper),
        Command::Query(query) => query::answer(rt, alloc, query, file, links),
        Command::Ask(ask) => ask::answer(rt, alloc, ask, file, source),
        Command::Dump(dump) => dump::answer(alloc, dump, file, &mut links[0]),
        Command::Stripe(stripe) => stripe::answer(alloc, stripe, file, source),
        Command::Fsm(fsm) => fsm::answer(alloc, fsm, file),
        Command::ShowSchema(show) => show_schema::answer(alloc, show, &mut links[0]),
        Command::Explain(explain) => explain::answer(alloc, explain, file),
        Command::Gen(values) => gen_lines::answer(alloc, values),
        Command::Trial(trial) => trial::answer(rt, alloc, trial),
        Command::Session(_) => unreachable!(),
    }
}

/// What a command replies, of the file that it names.
///
/// Errors: its first refusal; the keeper or the source failed; what is left; want of memory.
fn reply<R: Threads + Wait + Sync, S: Source, K: Keeper, L: Link + Send>(
    rt: &R,
    alloc: Global,
    command: &Command,
    file: &[u8],
    source: &mut S,
    keeper: &mut K,
    links: &mut [L],
) -> Result<Reply, Stop>
    requires links { 16 ≤ length links.old }
    requires file { IsFileOf (meaning_of (command_view command.now)) (K.shows keeper.old) file.now }
    ensures replies { IfOk result (Replies (meaning_of (command_view command.now))
        (lent (S.shows source.old) (K.shows keeper.old) (map L.shows links.old))
        (lent (S.shows source.new) (K.shows keeper.new) (map L.shows links.new))) }
    ensures source_calm { OnOk result ((S.shows source.new).faults ≡ (S.shows source.old).faults) }
    ensures keeper_calm { OnOk result ((K.shows keeper.new).faults ≡ (K.shows keeper.old).faults) }
    ensures stops { IfErr result (StopsWith (meaning_of (command_view command.now))
        (lent (S.shows source.old) (K.shows keeper.old) (map L.shows links.old))
        (lent (S.shows source.new) (K.shows keeper.new) (map L.shows links.new))) }
    ensures kept { (meaning_of (command_view command.now)).puts_files ≡ false
        → IsUnput (K.shows keeper.old) (K.shows keeper.new) }
    ensures asked { (K.shows keeper.new).asked ≡ (K.shows keeper.old).asked }
    ensures unread { (meaning_of (command_view command.now)).reads_input ≡ false → S.shows source.new
        ≡ S.shows source.old }
    ensures links { LeavesLinksBy (meaning_of (command_view command.now)).links (map L.shows links.old)
        (map L.shows links.new) }
    ensures reads { AsksEach (Some (meaning_of (command_view command.now)))
        (lent (S.shows source.old) (K.shows keeper.old) (map L.shows links.old))
        (lent (S.shows source.new) (K.shows keeper.new) (map L.shows links.new)) }
{
    match command {
        Command::Session(session) => Ok(Reply::Talk(session::answer(alloc, session, file)?)),
        _ => {
            let output = command_answer(rt, alloc, command, file, source, keeper, links)?;
            Ok(Reply::Whole(output))
        }
    }
}

/// What is replied where the words ask for it.
///
/// Errors: the words ask for nothing; the command's first refusal; the keeper or the source failed; what is left; want
/// of memory.
pub fn answer<R: Threads + Wait + Sync, S: Source, K: Keeper, L: Link + Send>(
    rt: &R,
    alloc: Global,
    words: &[String],
    source: &mut S,
    keeper: &mut K,
    links: &mut [L],
) -> Result<Reply, Stop>
    requires links { 16 ≤ length links.old }
    ensures replies { IfOk result (λ t. ForMeant (meant (map string_bytes words.now)) (λ m. Replies m
        (lent (S.shows source.old) (K.shows keeper.old) (map L.shows links.old))
        (lent (S.shows source.new) (K.shows keeper.new) (map L.shows links.new)) t)) }
    ensures source_calm { OnOk result ((S.shows source.new).faults ≡ (S.shows source.old).faults) }
    ensures keeper_calm { OnOk result ((K.shows keeper.new).faults ≡ (K.shows keeper.old).faults) }
    ensures stops { IfErr result (StopsMeant (meant (map string_bytes words.now))
        (lent (S.shows source.old) (K.shows keeper.old) (map L.shows links.old))
        (lent (S.shows source.new) (K.shows keeper.new) (map L.shows links.new))) }
    ensures kept { LeavesUnput (meant (map string_bytes words.now)) (K.shows keeper.old) (K.shows keeper.new) }
    ensures asks { AsksMeant (meant (map string_bytes words.now)) (K.shows keeper.old) (K.shows keeper.new) }
    ensures taken { Taken (map string_bytes words.now) → result ≢ Err Stop.Usage }
    ensures unread { LeavesUnread (meant (map string_bytes words.now)) (S.shows source.old) (S.shows source.new) }
    ensures links { LeavesUnasked (meant (map string_bytes words.now)) (map L.shows links.old) (map L.shows links.new) }
    ensures reads { AsksEach (meant (map string_bytes words.now))
        (lent (S.shows source.old) (K.shows keeper.old) (map L.shows links.old))
        (lent (S.shows source.new) (K.shows keeper.new) (map L.shows links.new)) }
{
    let read = read_words(alloc, words)?;
    let command = Box::new(alloc, read)?;
    let file = read_named(alloc, &command, keeper)?;
    reply(rt, alloc, &command, &file, source, keeper, links)
}
