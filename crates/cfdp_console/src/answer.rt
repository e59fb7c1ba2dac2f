//! What a request is answered.
ghost use Rattle.std.specs.Prelude.{◌≡◌, ◌≤◌, IfOk, OnOk, Some, string_bytes};
ghost use Rattle.serde_json.specs.Data.{depth};
ghost use Rattle.serde_json.specs.Read.{max_depth, read};
ghost use Rattle.serde_json.specs.View.{view};

use crate::denial::Denial;
use crate::details::details_value;
use crate::documents::{
    closed_value, files_value, history_value, id_text, log_value, open_value, status_value,
    transactions_value,
};
use crate::look::Look;
use crate::metrics::write_metrics;
use crate::page::{PAGE, POLICY};
use crate::shown::ConsoleView;
use bytes::{BufMut, Bytes};
use http::{HeaderValue, Request, StatusCode, header};
use http_server::{Response, Service};
use serde_json::{Value, json};
use std::alloc::{AllocError, Global};

/// What the body of an answer is.
#[derive(Clone, Copy, PartialEq, Eq)]
pub enum BodyKind {
    Page,
    Json,
    Metrics,
}

impl BodyKind {
    fn media_type(self) -> HeaderValue {
        match self {
            BodyKind::Page => HeaderValue::from_static("text/html; charset=utf-8"),
            BodyKind::Json => HeaderValue::from_static("application/json"),
            BodyKind::Metrics => HeaderValue::from_static("text/plain; version=0.0.4"),
        }
    }
}

/// What a request is answered.
#[derive(Drop)]
pub struct WebAnswer {
    pub status: StatusCode,
    pub kind: BodyKind,
    pub body: String,
}

impl WebAnswer {
    /// Returns the answer that a command was done.
    ///
    /// # Errors
    ///
    /// `AllocError` if there is no memory for it.
    pub fn done(alloc: Global) -> Result<WebAnswer, AllocError>
        ensures { IfOk result (λ answer. answer.status ≡ 200) }
    {
        json_answer(alloc, StatusCode::OK, &json!(in alloc; {"ok": true})?)
    }

    /// Returns the answer that says why a command wasn't done: it changed nothing.
    ///
    /// # Errors
    ///
    /// `AllocError` if there is no memory for it.
    pub fn refused(alloc: Global, why: &str) -> Result<WebAnswer, AllocError>
        ensures { IfOk result (λ answer. answer.status ≡ 409) }
    {
        json_answer(
            alloc,
            StatusCode::CONFLICT,
            &json!(in alloc; {"error": why})?,
        )
    }

    /// Returns the answer that says why nothing was asked of the station.
    ///
    /// # Errors
    ///
    /// `AllocError` if there is no memory for it.
    pub fn denied(alloc: Global, by: Denial) -> Result<WebAnswer, AllocError> {
        let why = by.meaning();
        json_answer(alloc, by.status(), &json!(in alloc; {"error": why})?)
    }

    /// Returns the answer with what is looked at.
    ///
    /// # Errors
    ///
    /// `AllocError` if there is no memory for it.
    pub fn shows(
        alloc: Global,
        look: &Look,
        shown: ConsoleView<'_>,
    ) -> Result<WebAnswer, AllocError> {
        let value = match look {
            Look::Page => return page(alloc),
            Look::Metrics => return metrics(alloc, shown),
            Look::Transaction(id) => return transaction(alloc, id.as_slice(), shown),
            Look::Details(id) => return details(alloc, id.as_slice(), shown),
            Look::Token => return token(alloc, shown),
            Look::Status => status_value(alloc, shown)?,
            Look::History => history_value(alloc, shown.samples)?,
            Look::Transactions(after) => transactions_value(alloc, shown, *after)?,
            Look::Log(after) => log_value(alloc, shown, *after)?,
            Look::Files => files_value(alloc, shown.files)?,
        };
        json_answer(alloc, StatusCode::OK, &value)
    }
}

/// An answer of JSON.
fn json_answer(alloc: Global, status: StatusCode, value: &Value) -> Result<WebAnswer, AllocError>
    ensures status { IfOk result (λ answer. answer.status ≡ status) }
    ensures reads_back { IfOk result (λ answer. depth (view value.now) ≤ max_depth
        → read (string_bytes answer.body) ≡ Some (view value.now)) }
{
    Ok(WebAnswer {
        status,
        kind: BodyKind::Json,
        body: value.to_string(alloc)?,
    })
}

fn page(alloc: Global) -> Result<WebAnswer, AllocError> {
    Ok(WebAnswer {
        status: StatusCode::OK,
        kind: BodyKind::Page,
        body: String::from_str(alloc, PAGE)?,
    })
}

fn metrics(alloc: Global, shown: ConsoleView<'_>) -> Result<WebAnswer, AllocError> {
    let mut body = String::new(alloc);
    if write_metrics(&mut body, shown.status).is_err() {
        return Err(AllocError);
    }
    Ok(WebAnswer {
        status: StatusCode::OK,
        kind: BodyKind::Metrics,
        body,
    })
}

/// The page's own token.
fn token(alloc: Global, shown: ConsoleView<'_>) -> Result<WebAnswer, AllocError> {
    match shown.token {
        Some(token) => json_answer(alloc, StatusCode::OK, &json!(in alloc; {"token": token})?),
        None => WebAnswer::denied(alloc, Denial::NotFound),
    }
}

/// One transaction that is open, or one of the last that were closed.
fn transaction(alloc: Global, id: &[u8], shown: ConsoleView<'_>) -> Result<WebAnswer, AllocError> {
    match transaction_value(alloc, id, shown)? {
        Some(value) => json_answer(alloc, StatusCode::OK, &value),
        None => WebAnswer::denied(alloc, Denial::NotFound),
    }
}

/// The details of such a transaction.
fn details(alloc: Global, id: &[u8], shown: ConsoleView<'_>) -> Result<WebAnswer, AllocError> {
    let Some(transaction) = transaction_value(alloc, id, shown)? else {
        return WebAnswer::denied(alloc, Denial::NotFound);
    };
    let value = details_value(alloc, shown, transaction)?;
    json_answer(alloc, StatusCode::OK, &value)
}

/// The object of a transaction that is open, or of one of the last that were closed.
fn transaction_value(
    alloc: Global,
    id: &[u8],
    shown: ConsoleView<'_>,
) -> Result<Option<Value>, AllocError> {
    for open in shown.open {
        if open.id.as_bytes() == id {
            return Ok(Some(open_value(alloc, open)?));
        }
    }
    closed_transaction_value(alloc, id, shown)
}

/// The object of one of the last transactions that were closed.
fn closed_transaction_value(
    alloc: Global,
    id: &[u8],
    shown: ConsoleView<'_>,
) -> Result<Option<Value>, AllocError> {
    for closed in shown.ledger.closed().iter() {
        if id_text(alloc, closed.id)?.as_bytes() == id {
            return Ok(Some(closed_value(alloc, closed)?));
        }
    }
    Ok(None)
}

/// Gives an answer to a request, and closes the connection after it if it `closes`.
#[derive(Drop)]
pub struct Answering<'a> {
    pub answer: &'a WebAnswer,
    pub closes: bool,
}

impl Service for Answering<'_> {
    ghost answers = { λ old request response new. (new ≡ old)
        × (response.status ≡ old.answer.now.status)
        × (response.body.items ≡ string_bytes old.answer.now.body) };

    fn call(
        &mut self,
        _request: &Request<Bytes>,
        response: &mut Response,
    ) -> Result<(), AllocError> {
        let answer = self.answer;
        add_fields(response, answer.kind)?;
        if self.closes {
            response.add_header(header::CONNECTION, HeaderValue::from_static("close"))?;
        }
        response.status = answer.status;
        response.body.put_slice(answer.body.as_bytes())
    }
}

/// Adds the fields of the head: nothing of an answer may be kept, taken for something else, or
/// shown
/// within another page; and a page has nothing run or loaded but what it has itself.
fn add_fields(response: &mut Response, kind: BodyKind) -> Result<(), AllocError>
    ensures { OnOk result (response.new.body ≡ response.old.body) }
{
    response.add_header(header::CONTENT_TYPE, kind.media_type())?;
    response.add_header(header::CACHE_CONTROL, HeaderValue::from_static("no-store"))?;
    response.add_header(
        header::X_CONTENT_TYPE_OPTIONS,
        HeaderValue::from_static("nosniff"),
    )?;
    response.add_header(
        header::REFERRER_POLICY,
        HeaderValue::from_static("no-referrer"),
    )?;
    response.add_header(
        header::CONTENT_SECURITY_POLICY,
        HeaderValue::from_static(POLICY),
    )?;
    Ok(())
}
