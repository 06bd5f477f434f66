ghost use Rattle.std.specs.Prelude.{◌≡◌, ◌%◌, ◌^◌};
ghost use Rattle.std.specs.List.{fold};
ghost use Rattle.ic_behaviour.specs.Totals.{total};
ghost use Rattle.ic_exact.specs.Key.{mix};
ghost use Rattle.ic_exact.specs.Ranges.{AreNumbers, bytes_of};
ghost use Rattle.ic_keep.specs.Key.{key_of_answer, key_of_bytes, key_of_message, key_of_origin, key_of_requests, key_of_response, with_memory};

use ic_behaviour::{Origin, Response};
use ic_exact::{Ranges, Shared, mix};
use ic_state::{Message, Request};

fn mix_all(key: u64, bytes: &[u8]) -> u64
    ensures { result ≡ fold mix key bytes.now }
{
    let mut key = key;
    for byte in bytes {
        key = mix(key, u64::from(*byte));
    }
    key
}

fn key_of_bytes(bytes: &[u8]) -> u64
    ensures { result ≡ key_of_bytes bytes.now }
{
    let length = bytes.len() as u64;
    if 64 < length {
        length
    } else {
        mix_all(length, bytes)
    }
}

fn key_of_response(response: &Response) -> u64
    ensures { result ≡ key_of_response response.now }
{
    match response {
        Response::Reply(bytes) => key_of_bytes(&bytes.items),
        Response::Reject { code, message } => {
            mix(u64::from(*code), key_of_bytes(message.items.as_bytes()))
        }
    }
}

fn key_of_origin(origin: &Origin) -> u64
    ensures { result ≡ key_of_origin origin.now }
{
    match origin {
        Origin::Ingress(number) => u64::from(*number),
        Origin::Canister {
            number,
            callback,
            ..
        } => mix(*number, u64::from(callback.reply_env)),
    }
}

fn key_of_message(message: &Message) -> u64
    ensures { result ≡ key_of_message message.now }
{
    match message {
        Message::Call { origin, arg, .. } => mix(key_of_origin(origin), key_of_bytes(&arg.items)),
        Message::Answer {
            origin,
            response,
            ..
        } => mix(mix(key_of_origin(origin), 1), key_of_response(response)),
    }
}

fn key_of_answer(answer: &Option<Response>) -> u64
    ensures { result ≡ key_of_answer answer.now }
{
    match answer {
        Some(response) => mix(1, key_of_response(response)),
        None => 0,
    }
}

/// The sum of the keys of messages, which does not depend on their order.
pub(crate) fn key_of_messages(messages: &[Shared<Message>]) -> u64
    ensures { result ≡ total key_of_message messages.now % 2 ^ 64 }
{
    let mut key = 0u64;
    for message in messages {
        key = key.wrapping_add(key_of_message(message.get()));
    }
    key
}

/// The key that is made of this one and of the answers to requests.
pub(crate) fn key_of_requests(key: u64, requests: &[Shared<Request>]) -> u64
    ensures { result ≡ key_of_requests key requests.now }
{
    let mut key = key;
    for request in requests {
        key = mix(key, key_of_answer(&request.get().answer));
    }
    key
}

/// The key that is made of this one and of the ranges of a memory.
pub(crate) fn with_memory(ranges: &Ranges, key: u64, numbers: &[u32]) -> u64
    requires { AreNumbers ranges.now numbers.now }
    ensures { result ≡ with_memory key (bytes_of ranges.now numbers.now) }
{
    ranges.are_distinct();
    let mut key = key;
    for number in numbers {
        key = mix(key, ranges.key(*number));
    }
    key
}

/// The key that is made of this one and of other numbers.
pub(crate) fn with_words(key: u64, words: &[u64]) -> u64
    ensures { result ≡ fold mix key words.now }
{
    let mut key = key;
    for word in words {
        key = mix(key, *word);
    }
    key
}
