// What comes of a case.

use serde_json::{Map, Value};
use std::io;

/// Whether the members of an outcome came as wanted, but for one that can't be seen. It prints those that didn't, with
/// the file's name and the line's number.
pub fn all_came(
    rt: &HostRuntime,
    name: &str,
    number: u64,
    wanted: &Map<String, Value>,
    outcome: &Value,
    unseen: Option<&str>,
) -> io::Result<bool> {
    let mut all = true;
    for (member, value) in wanted {
        if unseen == Some(member.as_str()) {
            continue;
        }
        let found = outcome.get(member.as_str()).unwrap_or(&Value::Null);
        if found != value {
            all = false;
            println!(rt; "{name}:{number} {member}: wanted {value}, came {found}")?;
        }
    }
    Ok(all)
}
