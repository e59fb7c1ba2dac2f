//! What answers the requests of all connections.
ghost use Rattle.std.specs.Prelude.{◌≡◌};
ghost use Rattle.cfdp_play.specs.Answering.{Answers};

use crate::answer::{answer, deny};
use crate::asking::what_is_asked;
use bytes::Bytes;
use http::Request;
use http_server::{Response, Service};
use std::alloc::AllocError;

/// What answers the requests of all connections, each by itself alone.
#[derive(Drop)]
pub struct Serving<'a> {
    /// What its process has of the system.
    pub rt: &'a HostRuntime,
}

impl Service for Serving<'_> {
    ghost answers = { λ old request response new. (new ≡ old) × Answers request response };

    /// Answers a request: with the page, a run or fields, if it may ask for these, and otherwise by
    /// the status that says why not.
    fn call(
        &mut self,
        request: &Request<Bytes>,
        response: &mut Response,
    ) -> Result<(), AllocError> {
        match what_is_asked(request) {
            Ok(asked) => answer(self.rt, asked, request.body().as_slice(), response),
            Err(denial) => deny(denial, response),
        }
    }
}
