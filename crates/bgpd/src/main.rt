//! The program `bgpd`: a BGP-4 speaker, and a replayer of recorded sessions.
#![tactic(auto)]

use bgpd_top::bgpd_main;
use io_edge::{HostClock, HostFiles, MemoryNet, ReaderSource, WriterSink};
use kroute::TableMemory;
use net_base::Items;
use std::alloc::Global;
use std::process::ExitCode;
use std::rt::Env;
use std::{env, io};

/// The words behind the program's name.
fn words(rt: &(impl Env + AllocGlobal)) -> io::Result<Vec<String>> {
    let words = env::args(rt)?.skip(1).collect(rt.alloc())?;
    Ok(words)
}

/// A net without connections, in place of sockets.
fn no_net(alloc: Global) -> MemoryNet {
    MemoryNet::new(alloc, Items::new(alloc), 0, Items::new(alloc))
}

fn main(rt: HostRuntime) -> ExitCode {
    let alloc = rt.alloc();
    // Words that can't be read fit no command, as no words do.
    let words = words(&rt).unwrap_or(Vec::new(alloc));
    let status = bgpd_main(
        alloc,
        words.as_slice(),
        &mut HostFiles::new(&rt),
        &mut ReaderSource::new(rt.reader()),
        &mut WriterSink::new(io::writer(&rt)),
        &mut WriterSink::new(rt.stderr()),
        &mut no_net(alloc),
        &mut no_net(alloc),
        &mut TableMemory::new(alloc),
        &mut HostClock::new(&rt),
    );
    ExitCode::from(status)
}
