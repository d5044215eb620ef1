//! Both programs on one machine, in two processes: it loads a clinic, starts itself once more as the host, reads the port
//! that the host prints, and asks it a script as the key does.
//!
//! It stands on the calls that the two programs stand on. Its words are none, or those of the host.
#![tactic(auto)]

use edge_real::dir_depot::DirDepot;
use edge_real::file_flash::FileFlash;
use edge_real::std_sink::StdSink;
use edge_real::tcp_link::TcpLink;
use host_commands::host_main;
use key_commands::key_main;
use key_messages::line_of;
use std::io::{BufRead, BufReader};
use std::process::{Child, Command, ExitCode, Stdio};
use std::{env, io};

/// What is answered where the other process cannot be started or told apart.
const NOT_STARTED: u8 = 1;

/// Is the host where there are words, and else the key.
fn main(rt: HostRuntime) -> ExitCode {
    let code = match run(&rt) {
        Ok(code) => code,
        Err(error) => {
            let _printed = eprintln!(rt; "{error}");
            NOT_STARTED
        }
    };
    ExitCode::from(code)
}

/// Answers the exit code.
fn run(rt: &HostRuntime) -> io::Result<u8> {
    let mut words = Vec::new(rt.alloc());
    for word in env::args(rt)? {
        words.push(word)?;
    }
    if words.len() > 1 {
        return be_host(rt, &words);
    }
    let loaded = be_key(
        rt,
        "key load --schema schema.sql --data tables --flash flash --visible visible",
    )?;
    if loaded != 0 {
        return Ok(loaded);
    }
    ask(rt)
}

/// Starts the host, asks it, and waits for its end.
fn ask(rt: &HostRuntime) -> io::Result<u8> {
    let mut host = start_host(rt)?;
    let port = port_of(rt, &mut host)?;
    let words = format!(in rt.alloc();
        "key query --flash flash --to 127.0.0.1:{port} --script script.sql"
    )?;
    let asked = be_key(rt, &words)?;
    let served = host.wait()?.code();
    if asked != 0 {
        return Ok(asked);
    }
    if served != Some(0) {
        return Ok(NOT_STARTED);
    }
    Ok(0)
}

/// Starts this program as the host.
fn start_host(rt: &HostRuntime) -> io::Result<Child> {
    Command::new(rt.alloc(), env::current_exe(rt)?.as_path())?
        .arg("--visible")?
        .arg("visible")?
        .arg("--at")?
        .arg("127.0.0.1:0")?
        .stdout(Stdio::piped())
        .spawn(rt)
}

/// The port that the host prints, as text.
fn port_of(rt: &HostRuntime, host: &mut Child) -> io::Result<String> {
    let mut line = String::new(rt.alloc());
    if let Some(out) = host.stdout.take() {
        BufReader::new(rt.alloc(), out)?.read_line(&mut line)?;
    }
    let port = line.as_str().trim_end().strip_prefix("port ").unwrap_or("");
    Ok(String::from_str(rt.alloc(), port)?)
}

/// Does a command of the key, tells on standard error where it did not go well, and answers its exit code.
fn be_key(rt: &HostRuntime, line: &str) -> io::Result<u8> {
    let mut words = Vec::new(rt.alloc());
    for word in line.split(' ') {
        words.push(String::from_str(rt.alloc(), word)?)?;
    }
    let mut depot = DirDepot::new(rt.alloc(), rt);
    let mut flash = FileFlash::new(rt.alloc(), rt);
    let mut link = TcpLink::new(rt);
    let mut out = StdSink::new(rt.alloc(), rt)?;
    let ended = key_main(
        rt.alloc(),
        &words,
        &mut depot,
        &mut flash,
        &mut link,
        &mut out,
    );
    let code = ended.exit_code();
    if code != 0 {
        let told = line_of(rt.alloc(), &words, &ended, None)?;
        let _printed = eprintln!(rt; "{told}");
    }
    Ok(code)
}

/// Does what the host's words say, and answers its exit code.
fn be_host(rt: &HostRuntime, words: &[String]) -> io::Result<u8> {
    let mut depot = DirDepot::new(rt.alloc(), rt);
    let mut link = TcpLink::new(rt);
    let mut out = StdSink::new(rt.alloc(), rt)?;
    Ok(host_main(rt.alloc(), words, &mut depot, &mut link, &mut out).exit_code())
}
