// Lists that grow by what a line gives.
ghost use Rattle.std.specs.Prelude.{◌≡◌, ◌++◌, IfErr, OnOk};
ghost use Rattle.std.specs.Option.{option_to_list};
ghost use Rattle.line_texts.specs.declared.fault.Fault.{Fault};

use crate::fault::Fault;

/// Adds what was found to a list, if something was.
pub fn push_found<T: Drop>(list: &mut Vec<T>, found: Option<T>) -> Result<(), Fault>
    ensures added { OnOk result (list.new.items ≡ list.old.items ++ option_to_list found) }
    ensures memory { IfErr result (λ e. e ≡ Fault.Memory) }
{
    if let Some(item) = found {
        list.push(item)?;
    }
    Ok(())
}
