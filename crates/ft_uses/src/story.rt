//! What the two editors do.

use crate::editor::Editor;
use crate::edits::{insert, note, remove};
use crate::faults::Fault;
use crate::server::Server;
use crate::showing::show;
use crate::summary::blame;
use ft_changes::Telling;
use std::alloc::Global;

/// Two new editors edit over one server; returns what they showed meanwhile, and who inserted what in a client that starts
/// from a summary.
pub fn tell<R: Telling + Drop>(alloc: Global) -> Result<String, Fault> {
    let mut ann = Editor::<R>::new(alloc)?;
    let mut bob = Editor::<R>::new(alloc)?;
    let mut server = Server::new(alloc);
    let mut out = String::new(alloc);
    play(alloc, &mut server, &mut out, &mut ann, &mut bob)?;
    blame::<R>(alloc, &mut out)?;
    Ok(out)
}

// Two editors edit over the server, and what they show is written.
fn play<R: Telling + Drop>(
    alloc: Global,
    server: &mut Server,
    out: &mut String,
    ann: &mut Editor<R>,
    bob: &mut Editor<R>,
) -> Result<(), Fault> {
    begin(alloc, server, ann, bob)?;
    show_both(alloc, out, ann, bob)?;
    type_at_once(alloc, ann, bob)?;
    show_both(alloc, out, ann, bob)?;
    exchange(server, ann, bob)?;
    show_both(alloc, out, ann, bob)?;
    note_cat(alloc, server, ann, bob)?;
    show_both(alloc, out, ann, bob)?;
    part(alloc, server, ann, bob)?;
    show_both(alloc, out, ann, bob)?;
    come_back(server, ann, bob)?;
    show_both(alloc, out, ann, bob)
}

// Both connect, and Ann types the first line.
fn begin<R: Telling + Drop>(
    alloc: Global,
    server: &mut Server,
    ann: &mut Editor<R>,
    bob: &mut Editor<R>,
) -> Result<(), Fault> {
    server.join(&mut ann.client, 1, "ann/1")?;
    server.join(&mut bob.client, 2, "bob/1")?;
    exchange(server, ann, bob)?;
    insert(alloc, ann, 0, "The cat sat.")?;
    exchange(server, ann, bob)
}

// Both type before either hears of the other.
fn type_at_once<R: Telling + Drop>(
    alloc: Global,
    ann: &mut Editor<R>,
    bob: &mut Editor<R>,
) -> Result<(), Fault> {
    insert(alloc, ann, 4, "black ")?;
    remove(bob, 7, 11)?;
    insert(alloc, bob, 7, " slept")
}

// Bob puts a note on the cat while Ann types in front of it.
fn note_cat<R: Telling + Drop>(
    alloc: Global,
    server: &mut Server,
    ann: &mut Editor<R>,
    bob: &mut Editor<R>,
) -> Result<(), Fault> {
    note(alloc, bob, "whose", 10, 12)?;
    insert(alloc, ann, 0, "Look: ")?;
    exchange(server, ann, bob)
}

// Bob's connection is gone, and both go on.
fn part<R: Telling + Drop>(
    alloc: Global,
    server: &mut Server,
    ann: &mut Editor<R>,
    bob: &mut Editor<R>,
) -> Result<(), Fault> {
    server.leave(&mut bob.client)?;
    insert(alloc, bob, 26, " Quietly.")?;
    remove(ann, 10, 16)?;
    server.submit(&mut ann.client)?;
    server.deliver(ann)
}

// Bob connects again, and what he typed meanwhile is sent.
fn come_back<R: Telling + Drop>(
    server: &mut Server,
    ann: &mut Editor<R>,
    bob: &mut Editor<R>,
) -> Result<(), Fault> {
    server.join(&mut bob.client, 3, "bob/2")?;
    server.deliver(bob)?;
    exchange(server, ann, bob)
}

// Each sends what it has, and then hears of all.
fn exchange<R: Telling + Drop>(
    server: &mut Server,
    ann: &mut Editor<R>,
    bob: &mut Editor<R>,
) -> Result<(), Fault> {
    server.submit(&mut ann.client)?;
    server.submit(&mut bob.client)?;
    server.deliver(ann)?;
    server.deliver(bob)
}

// Writes what each shows.
fn show_both<R: Telling + Drop>(
    alloc: Global,
    out: &mut String,
    ann: &Editor<R>,
    bob: &Editor<R>,
) -> Result<(), Fault> {
    show(alloc, out, "ann", ann)?;
    show(alloc, out, "bob", bob)
}
