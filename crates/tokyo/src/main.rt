//! The program: a database in memory or in the files of a folder, served over the standard streams or over sockets.
#![tactic(auto)]

mod help;
mod host;

use host::HostClock;
use std::alloc::{AllocError, Global};
use std::env;
use std::fs::{File, Files};
use std::io::ErrorKind;
use std::os::fd::AsRawFd;
use std::process::ExitCode;
use tc_io::Sink;
use tc_realfs::FolderVolume;
use tk_top::{End, put_line, run};
use ty_net::{NetWire, StdSink};

// Writes the line of an end that comes before the run.
fn give_up(err: &mut impl Sink, end: End) -> ExitCode {
    let _ = put_line(end, err);
    ExitCode::from(end.status())
}

// Writes a text that the words asked for; where it can't, that is a fault of a standard stream.
fn say(out: &mut impl Sink, err: &mut impl Sink, text: &[u8]) -> ExitCode {
    match out.put(text) {
        Ok(()) => ExitCode::SUCCESS,
        Err(_) => give_up(err, End::WireFault),
    }
}

// Takes the descriptors of standard streams that are closed, since a file or a socket would get them otherwise and be taken for a
// stream. What stands there in their place is a folder: each read and write of it fails.
fn take_low<R: Files<File = File>>(alloc: Global, files: &R) -> Result<Vec<File>, AllocError> {
    let mut taken = Vec::new(alloc);
    for _ in 0..3 {
        let Ok(folder) = File::open(files, "/") else {
            break;
        };
        if folder.as_raw_fd() > 2 {
            break;
        }
        taken.push(folder)?;
    }
    Ok(taken)
}

fn main(rt: HostRuntime) -> ExitCode {
    let alloc = rt.alloc();
    let mut out = StdSink::new(rt.stdout());
    let mut err = StdSink::new(rt.stderr());
    let Ok(_taken) = take_low(alloc, &rt) else {
        return give_up(&mut err, End::NoMemory);
    };
    let args = match env::args(&rt) {
        Ok(args) => args,
        // a word that isn't UTF-8 is none of ours
        Err(e) if e.kind() != ErrorKind::OutOfMemory => return give_up(&mut err, End::Words),
        Err(_) => return give_up(&mut err, End::NoMemory),
    };
    let Ok(words) = args.skip(1).collect::<Vec<String>>(alloc) else {
        return give_up(&mut err, End::NoMemory);
    };
    if let Some(text) = help::text_of(&words) {
        return say(&mut out, &mut err, text);
    }
    let vol = FolderVolume::new(&rt, alloc);
    let Ok(mut wire) = NetWire::new(alloc, &rt, rt.stdin(), rt.stdout()) else {
        return give_up(&mut err, End::NoMemory);
    };
    let mut clock = HostClock::new(&rt);
    let ran = run(
        alloc, &words, vol, &mut wire, &mut out, &mut err, &mut clock,
    );
    // what was taken before a status other than 0 isn't lost
    let _ = wire.write_out();
    let status = ran.status;
    let mut vol = ran.vol;
    vol.end();
    ExitCode::from(status)
}
