// Bytes as a member of a case gives them: a text, base64 in an object, or a repeated text.

use base64::engine::general_purpose::STANDARD;
use case_files::CaseFault;
use serde_json::{Value, json};
use std::alloc::{AllocError, Global};

/// The bytes of a member.
pub fn bytes_of(alloc: Global, value: &Value) -> Result<Vec<u8>, CaseFault> {
    if let Some(text) = value.as_str() {
        return Ok(Vec::from_slice(alloc, text.as_bytes())?);
    }
    if let Some(text) = value.get("base64").and_then(Value::as_str) {
        return match STANDARD.decode(alloc, text.as_bytes()) {
            Ok(bytes) => Ok(bytes),
            Err(_) => Err(CaseFault::Form),
        };
    }
    let text = value.get("repeat").and_then(Value::as_str);
    let times = value.get("times").and_then(Value::as_u64);
    match (text, times) {
        (Some(text), Some(times)) => repeated(alloc, text.as_bytes(), times),
        _ => Err(CaseFault::Form),
    }
}

// So many copies of these bytes.
fn repeated(alloc: Global, piece: &[u8], times: u64) -> Result<Vec<u8>, CaseFault> {
    let mut bytes = Vec::new(alloc);
    for _ in 0..times {
        bytes.extend_from_slice(piece)?;
    }
    Ok(bytes)
}

/// Bytes in the form of a member.
pub fn value_of(alloc: Global, bytes: &[u8]) -> Result<Value, AllocError> {
    match str::from_utf8(bytes) {
        Ok(text) => json!(in alloc; text),
        Err(_) => base64_of(alloc, bytes),
    }
}

/// Bytes as base64 in an object.
pub fn base64_of(alloc: Global, bytes: &[u8]) -> Result<Value, AllocError> {
    let text = STANDARD.encode(alloc, bytes)?;
    json!(in alloc; {"base64": text})
}
