ghost use Rattle.std.specs.Prelude.{◌≡◌, IfOk, codes, string_bytes};
ghost use Rattle.json.specs.Print.{quoted};
ghost use Rattle.ic_output.specs.Texts.{accepted_text, call_refused_text, query_text, answer_text, ran_text, pick_text, response_text, bad_text};

use ic_base::NoMemory;
use ic_principal::Bytes;
use ic_script::{LineCause, hex_word};
use ic_state::Response;
use serde_json::Value;
use std::alloc::Global;

// Room for every text but the longest, so that its memory is taken once.
const ROOM: usize = 96;

/// For a call that was submitted, by its number from 0.
#[tactic(auto, unfolding(crate::specs::Texts::accepted_text))]
pub fn accepted_text(alloc: Global, number: usize) -> Result<Bytes, NoMemory>
    ensures { IfOk result (λ text. text ≡ accepted_text number) }
{
    let mut text = String::with_capacity(alloc, ROOM)?;
    write!(text, "accepted {number}\n")?;
    Ok(Bytes {
        items: text.into_bytes(),
    })
}

/// For a call that its callee did not accept.
#[tactic(auto, unfolding(crate::specs::Texts::call_refused_text))]
pub fn call_refused_text(alloc: Global) -> Result<Bytes, NoMemory>
    ensures { IfOk result (λ text. text ≡ call_refused_text) }
{
    Ok(Bytes {
        items: String::from_str(alloc, "refused\n")?.into_bytes(),
    })
}

/// For a query.
#[tactic(auto, unfolding(crate::specs::Texts::query_text))]
pub fn query_text(alloc: Global, response: &Response) -> Result<Bytes, NoMemory>
    ensures { IfOk result (λ text. text ≡ query_text response.now) }
{
    let response = response_text(alloc, response)?;
    Ok(Bytes {
        items: format!(in alloc; "query {response}\n")?.into_bytes(),
    })
}

/// For the call with that number from 0, at the end of the script.
#[tactic(auto, unfolding(crate::specs::Texts::answer_text))]
pub fn answer_text(
    alloc: Global,
    number: usize,
    answer: &Option<Response>,
) -> Result<Bytes, NoMemory>
    ensures { IfOk result (λ text. text ≡ answer_text number answer.now) }
{
    let mut text = String::with_capacity(alloc, ROOM)?;
    match answer {
        None => write!(text, "answer {number} waiting\n")?,
        Some(response) => {
            let response = response_text(alloc, response)?;
            write!(text, "answer {number} {response}\n")?;
        }
    }
    Ok(Bytes {
        items: text.into_bytes(),
    })
}

/// For rounds that were made, with the number of messages that are left.
#[tactic(auto, unfolding(crate::specs::Texts::ran_text))]
pub fn ran_text(alloc: Global, made: u32, left: usize) -> Result<Bytes, NoMemory>
    ensures { IfOk result (λ text. text ≡ ran_text made left) }
{
    Ok(Bytes {
        items: format!(in alloc; "ran {made} left {left}\n")?.into_bytes(),
    })
}

/// For a pick, by whether the place was eligible.
#[tactic(auto, unfolding(crate::specs::Texts::pick_text))]
pub fn pick_text(alloc: Global, was_eligible: bool) -> Result<Bytes, NoMemory>
    ensures { IfOk result (λ text. text ≡ pick_text was_eligible) }
{
    let text = if was_eligible {
        String::from_str(alloc, "picked\n")?
    } else {
        String::from_str(alloc, "not eligible\n")?
    };
    Ok(Bytes {
        items: text.into_bytes(),
    })
}

// What a response tells.
#[tactic(auto, unfolding(crate::specs::Texts::response_text))]
fn response_text(alloc: Global, response: &Response) -> Result<String, NoMemory>
    ensures { IfOk result (λ text. string_bytes text ≡ response_text response.now) }
{
    match response {
        Response::Reply(bytes) => {
            let digits = hex_word(alloc, &bytes.items)?;
            format!(in alloc; "replied {digits}")
        }
        Response::Reject { code, message } => {
            let message = quoted(alloc, &message.items)?;
            format!(in alloc; "rejected {code} {message}")
        }
    }
}

// A text as a string of JSON.
fn quoted(alloc: Global, text: &str) -> Result<String, NoMemory>
    ensures { IfOk result (λ made. string_bytes made ≡ quoted text.now) }
{
    Value::String(String::from_str(alloc, text)?).to_string(alloc)
}

/// For a bad line, by its number from 1.
#[tactic(auto, unfolding(crate::specs::Texts::bad_text))]
pub fn bad_text(alloc: Global, line: u64, cause: LineCause) -> Result<Bytes, NoMemory>
    ensures { IfOk result (λ text. text ≡ bad_text line cause) }
{
    Ok(Bytes {
        items: format!(in alloc; "line {line}: {cause}\n")?.into_bytes(),
    })
}
