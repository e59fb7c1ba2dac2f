//! What requests are answered.
ghost use Rattle.std.specs.Prelude.{◌≡◌, OnOk};
ghost use Rattle.http_server.specs.Response.{IsBlank};
ghost use Rattle.cfdp_play.specs.Answering.{AnswersAsked, FieldsAnswer, RunAnswers, status_of};

use crate::asking::Asked;
use crate::fields::fields;
use crate::load::excess_of;
use crate::page::{PAGE, POLICY};
use crate::run::run_script;
use crate::shown::run_value;
use bytes::BufMut;
use cfdp_console::Denial;
use http::{HeaderValue, StatusCode, header};
use http_server::Response;
use std::alloc::{AllocError, Global};

/// What an answer is.
#[derive(Clone, Copy)]
enum Kind {
    Page,
    Json,
    Text,
}

impl Kind {
    fn media_type(self) -> HeaderValue {
        match self {
            Kind::Page => HeaderValue::from_static("text/html; charset=utf-8"),
            Kind::Json => HeaderValue::from_static("application/json"),
            Kind::Text => HeaderValue::from_static("text/plain; charset=utf-8"),
        }
    }
}

/// Answers what was asked for with this body.
///
/// # Errors
///
/// `AllocError` if there is no memory for the answer.
pub fn answer(
    rt: &HostRuntime,
    asked: Asked,
    body: &[u8],
    response: &mut Response,
) -> Result<(), AllocError>
    requires { IsBlank response.old }
    ensures { OnOk result (AnswersAsked asked body.now response.new) }
{
    match asked {
        Asked::Page => fill(response, StatusCode::OK, Kind::Page, PAGE.as_bytes()),
        Asked::Run => answer_run(rt, body, response),
        Asked::Fields => answer_fields(rt.alloc(), body, response),
    }
}

/// Answers why nothing is done.
///
/// # Errors
///
/// `AllocError` if there is no memory for the answer.
pub fn deny(denial: Denial, response: &mut Response) -> Result<(), AllocError>
    requires { IsBlank response.old }
    ensures { OnOk result (response.new.status ≡ status_of denial) }
{
    let why = match denial {
        Denial::BadBody => "the first line must be `pdus`, or `frames ZONE INSERT CONTROL CHECK`",
        denial => denial.meaning(),
    };
    fill(response, status(denial), Kind::Text, why.as_bytes())
}

/// Returns the status of HTTP that says why nothing is done.
fn status(denial: Denial) -> StatusCode
    ensures { result ≡ status_of denial }
{
    match denial {
        Denial::NotFound => StatusCode::NOT_FOUND,
        Denial::WrongMethod => StatusCode::METHOD_NOT_ALLOWED,
        Denial::Foreign => StatusCode::FORBIDDEN,
        Denial::NoToken => StatusCode::UNAUTHORIZED,
        Denial::BadBody => StatusCode::BAD_REQUEST,
        Denial::NoMemory => StatusCode::SERVICE_UNAVAILABLE,
    }
}

/// Answers with the run of a script.
fn answer_run(rt: &HostRuntime, script: &[u8], response: &mut Response) -> Result<(), AllocError>
    requires { IsBlank response.old }
    ensures { OnOk result (RunAnswers script.now response.new) }
{
    let alloc = rt.alloc();
    if let Some(excess) = excess_of(script) {
        let why = format!(in alloc; "{excess}")?;
        return fill(
            response,
            StatusCode::PAYLOAD_TOO_LARGE,
            Kind::Text,
            why.as_bytes(),
        );
    }
    let ended = run_script(rt, script)?;
    let Ok(report) = str::from_utf8(ended.report.as_slice()) else {
        let why = b"the report is not valid UTF-8".as_slice();
        return fill(response, StatusCode::INTERNAL_SERVER_ERROR, Kind::Text, why);
    };
    let text = run_value(alloc, &ended.ran, report)?.to_string(alloc)?;
    fill(response, StatusCode::OK, Kind::Json, text.as_bytes())
}

/// Answers with fields.
fn answer_fields(alloc: Global, body: &[u8], response: &mut Response) -> Result<(), AllocError>
    requires { IsBlank response.old }
    ensures { OnOk result (FieldsAnswer body.now response.new) }
{
    match fields(alloc, body)? {
        Some(told) => fill(response, StatusCode::OK, Kind::Text, told.as_slice()),
        None => deny(Denial::BadBody, response),
    }
}

/// Fills an answer, the last one over its connection: nothing of it may be kept, taken for
/// something else, or shown within another page; and the page must run and load nothing but what it
/// has itself.
fn fill(
    response: &mut Response,
    status: StatusCode,
    kind: Kind,
    body: &[u8],
) -> Result<(), AllocError>
    requires { IsBlank response.old }
    ensures status { OnOk result (response.new.status ≡ status) }
    ensures body { OnOk result (response.new.body.items ≡ body.now) }
{
    response.status = status;
    response.add_header(header::CONTENT_TYPE, kind.media_type())?;
    response.add_header(header::CONNECTION, HeaderValue::from_static("close"))?;
    response.add_header(header::CACHE_CONTROL, HeaderValue::from_static("no-store"))?;
    response.add_header(
        header::X_CONTENT_TYPE_OPTIONS,
        HeaderValue::from_static("nosniff"),
    )?;
    response.add_header(
        header::REFERRER_POLICY,
        HeaderValue::from_static("no-referrer"),
    )?;
    response.add_header(
        header::CONTENT_SECURITY_POLICY,
        HeaderValue::from_static(POLICY),
    )?;
    response.body.put_slice(body)
}
