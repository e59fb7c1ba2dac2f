//! A connection of the console, as steps over octets: it makes no call of the system but through
//! the reader and the writer that it borrows.
ghost use Rattle.std.specs.Prelude.{◌≡◌, ◌++◌, ◌↔◌, ℕ, List, [], IfOk, IfSome, IsFalse};
ghost use Rattle.std.specs.Prelude.{IsTrue, OnOk};
ghost use Rattle.std.specs.Result.{result_ok};
ghost use Rattle.http.specs.declared.request.Request.{Request};
ghost use Rattle.http_server.specs.Connection.{history};
ghost use Rattle.http_server.specs.Exchange.{Calls};
ghost use Rattle.http_server.specs.History.{IsQuiet};
ghost use Rattle.cfdp_console.specs.Asking.{May};
ghost use Rattle.cfdp_console.specs.Hearing.{Heard, HearsNothing, HearsRequest, IsGone, Listens};
ghost use Rattle.cfdp_console.specs.Hearing.{Reads, Waits, octets_of, requests_of};

use crate::answer::{Answering, WebAnswer};
use crate::asking::{Ask, judge};
use crate::denial::Denial;
use crate::guard::Guard;
use bytes::Bytes;
use http::{Request, Version};
use http_server::{Config, Connection, Response, Service, State};
use http1::Limits;
use std::alloc::{AllocError, Global};
use std::hash::RandomState;
use std::io;
use std::io::{ErrorKind, Write};

/// The most octets of a request's body. With its head, of up to 16 KiB, it has at most 64 KiB.
const MOST_BODY: usize = 48 * 1024;

/// A caller is left after so many milliseconds in which its request wasn't whole, or its answer
/// hadn't gone.
const PATIENCE: u64 = 10_000;

/// What is answered without its body, and with it.
const HEAD: &[u8] = b"HEAD / HTTP/1.1\r\nHost: localhost\r\n\r\n";

const GET: &[u8] = b"GET / HTTP/1.1\r\nHost: localhost\r\n\r\n";

/// How far a caller is.
#[derive(Clone, Copy, PartialEq, Eq)]
enum Stage {
    /// Its request isn't whole.
    Hearing,
    /// It must be answered.
    Awaiting,
    /// Its answer goes.
    Sending,
    /// It is over.
    Gone,
}

/// A connection of the console. It carries requests, each of which is answered before the next one
/// is read; once one asks for that, or isn't of HTTP/1.1, it is closed after the answer.
#[derive(Drop)]
pub struct Caller {
    alloc: Global,
    keys: RandomState,
    hearing: Connection,
    reply: Connection,
    stage: Stage,
    // Whether the answer goes without its body, and whether one more request may follow.
    is_head: bool,
    keeps: bool,
    // Whether the last answer has gone, and it wasn't looked what came meanwhile.
    is_anew: bool,
    // When this stage began, in milliseconds.
    since: u64,
}

/// Hears one request, and judges it.
#[derive(Drop)]
struct Hearing<'a> {
    alloc: Global,
    guard: &'a Guard,
    asked: Option<Result<Ask, Denial>>,
    is_head: bool,
    // Whether it is of HTTP/1.1.
    is_current: bool,
}

impl Service for Hearing<'_> {
    ghost answers = { λ old request response new. HearsRequest old request new };

    fn call(
        &mut self,
        request: &Request<Bytes>,
        _response: &mut Response,
    ) -> Result<(), AllocError> {
        if self.asked.is_none() {
            self.is_head = request.method().as_str() == "HEAD";
            self.is_current = request.version() == Version::HTTP_11;
            self.asked = Some(judge(self.alloc, self.guard, request));
        }
        Ok(())
    }
}

impl Caller {
    /// Returns a caller that came at this time, in milliseconds. The names of its fields are kept
    /// under secret keys, since it chooses them.
    pub fn new(alloc: Global, keys: RandomState, now: u64) -> Caller
        ensures octets { octets_of result ≡ [] }
        ensures requests { requests_of result ≡ [] }
    {
        Caller {
            alloc,
            keys,
            hearing: Connection::new(alloc, keys, config(0)),
            reply: Connection::new(alloc, keys, config(usize::MAX)),
            stage: Stage::Hearing,
            is_head: false,
            keeps: false,
            is_anew: false,
            since: now,
        }
    }

    /// Returns `true` if octets of it are taken.
    pub fn wants_octets(&self) -> bool
        ensures { IsTrue result → Listens self.now }
    {
        self.stage == Stage::Hearing && self.hearing.wants_read()
    }

    /// Returns `true` if octets wait to be sent to it.
    pub fn has_output(&self) -> bool {
        match self.stage {
            Stage::Hearing => self.hearing.wants_write(),
            Stage::Sending => self.reply.wants_write(),
            Stage::Awaiting | Stage::Gone => false,
        }
    }

    /// Returns `true` if it is over: all is sent, or it was too slow.
    pub fn is_gone(&self) -> bool
        ensures { IsTrue result ↔ IsGone self.now }
    {
        self.stage == Stage::Gone
    }

    /// Takes octets that came; none of them means that no more come. What it asks, once its request
    /// is whole and it may ask that: it must be answered. One that may not is answered here.
    pub fn hears(&mut self, octets: &[u8], guard: &Guard, now: u64) -> Option<Ask>
        ensures may { IfSome result (λ ask.
            (request : Request (List ℕ)) × May guard.now request ask) }
        ensures heard { Heard guard.now self.old self.new result }
        ensures read { Listens self.old → Reads self.old self.new octets.now }
    {
        if self.stage != Stage::Hearing {
            return None;
        }
        if take(&mut self.hearing, octets).is_err() {
            self.stage = Stage::Gone;
            return None;
        }
        self.judges(guard, now)
    }

    /// Returns `true` if its last answer has gone, and its next request may have come meanwhile.
    pub fn is_anew(&self) -> bool {
        self.is_anew
    }

    /// Returns what it asks by a request that came while its last answer went, as `hears`.
    pub fn goes_on(&mut self, guard: &Guard, now: u64) -> Option<Ask>
        ensures may { IfSome result (λ ask.
            (request : Request (List ℕ)) × May guard.now request ask) }
        ensures heard { Heard guard.now self.old self.new result }
        ensures read { octets_of self.new ≡ octets_of self.old }
    {
        self.is_anew = false;
        if self.stage != Stage::Hearing {
            return None;
        }
        self.judges(guard, now)
    }

    /// What it asks, if its request is whole.
    fn judges(&mut self, guard: &Guard, now: u64) -> Option<Ask>
        ensures heard { Heard guard.now self.old self.new result }
        ensures read { octets_of self.new ≡ octets_of self.old }
    {
        let mut service = Hearing {
            alloc: self.alloc,
            guard,
            asked: None,
            is_head: false,
            is_current: false,
        };
        answer_all(&mut self.hearing, &mut service);
        let Hearing {
            asked,
            is_head,
            is_current,
            ..
        } = service;
        self.is_head = is_head;
        self.keeps = is_current && self.hearing.state() == State::Open;
        match asked {
            Some(asked) => self.judged(asked, now),
            None => None,
        }
    }

    /// Its request is whole.
    fn judged(&mut self, asked: Result<Ask, Denial>, now: u64) -> Option<Ask>
        ensures given { result ≡ result_ok asked }
        ensures waits { IfOk asked (λ _. Waits self.new) }
        ensures same { self.new.hearing ≡ self.old.hearing }
    {
        self.stage = Stage::Awaiting;
        self.since = now;
        match asked {
            Ok(ask) => Some(ask),
            Err(denial) => {
                self.answers(WebAnswer::denied(self.alloc, denial), now);
                None
            }
        }
    }

    /// Answers what it asks. If there is no memory for the answer, it is left without one.
    pub fn answers(&mut self, answer: Result<WebAnswer, AllocError>, now: u64)
        ensures same { self.new.hearing ≡ self.old.hearing }
        ensures kept { HearsNothing self.old self.new }
    {
        if self.stage != Stage::Awaiting {
            return;
        }
        let request = if self.is_head { HEAD } else { GET };
        self.since = now;
        self.stage = match answer {
            Ok(answer) => {
                let mut service = Answering {
                    answer: &answer,
                    closes: !self.keeps,
                };
                match take(&mut self.reply, request) {
                    Ok(()) => {
                        answer_all(&mut self.reply, &mut service);
                        Stage::Sending
                    }
                    Err(_) => Stage::Gone,
                }
            }
            Err(AllocError) => Stage::Gone,
        };
    }

    /// Sends what the writer has room for, at this time. After an answer it goes on to the next
    /// request, if one may follow.
    ///
    /// # Errors
    ///
    /// That of the writer.
    pub fn sends<W: Write>(&mut self, out: &mut W, now: u64) -> io::Result<usize>
        ensures { HearsNothing self.old self.new }
    {
        match self.stage {
            Stage::Hearing => {
                let sent = self.hearing.write_to(out)?;
                if self.hearing.is_done() {
                    self.stage = Stage::Gone;
                }
                Ok(sent)
            }
            Stage::Sending => {
                let sent = self.reply.write_to(out)?;
                if !self.reply.wants_write() {
                    self.begins_anew(now);
                }
                Ok(sent)
            }
            Stage::Awaiting | Stage::Gone => Err(io::Error::from(ErrorKind::WouldBlock)),
        }
    }

    /// Goes on to its next request, if one may follow. What `hearing` would answer was sent by
    /// `reply`, and is discarded.
    fn begins_anew(&mut self, now: u64)
        ensures octets { octets_of self.new ≡ octets_of self.old }
        ensures requests { requests_of self.new ≡ requests_of self.old }
    {
        let _ = self.hearing.write_to(&mut io::sink());
        self.is_anew = self.keeps && !self.hearing.wants_write();
        self.since = now;
        self.stage = if self.is_anew {
            Stage::Hearing
        } else {
            Stage::Gone
        };
    }

    /// Leaves it if it was too slow.
    pub fn looks_at_clock(&mut self, now: u64)
        ensures { HearsNothing self.old self.new }
    {
        if now.saturating_sub(self.since) >= PATIENCE {
            self.stage = Stage::Gone;
        }
    }

    /// Leaves it at once, with nothing more said.
    pub fn breaks_off(&mut self)
        ensures { HearsNothing self.old self.new }
    {
        self.stage = Stage::Gone;
    }
}

/// How requests are read: none while more than `max_pending` octets wait to be sent.
fn config(max_pending: usize) -> Config {
    Config {
        limits: Limits::default(),
        max_body_len: MOST_BODY,
        max_pending,
        read_size: 4096,
    }
}

/// Lets a connection answer what it has read.
fn answer_all<S: Service>(connection: &mut Connection, service: &mut S)
    ensures calls { Calls S.answers service.old service.new (history connection.old).calls
        (history connection.new).calls }
    ensures quiet { IsQuiet (history connection.old) (history connection.new) }
{
    connection.advance(service);
}

/// Has a connection read these octets; none of them means that no more come.
///
/// # Errors
///
/// `OutOfMemory`.
fn take(connection: &mut Connection, octets: &[u8]) -> io::Result<()>
    ensures calls { (history connection.new).calls ≡ (history connection.old).calls }
    ensures ok { OnOk result (IsFalse (history connection.old).ended
        → (history connection.new).received
        ≡ (history connection.old).received ++ octets.now) }
{
    let mut left = octets;
    let _ = connection.read_from(&mut left)?;
    for _part in 0..octets.len() {
        if left.is_empty() {
            break;
        }
        let _ = connection.read_from(&mut left)?;
    }
    Ok(())
}
