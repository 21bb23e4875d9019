// What has a printed form, and lists of it.
ghost use Rattle.std.specs.Prelude.{◌≡◌, ◌≤◌, ◌++◌, List, ℕ, map, take, length, OnOk, OnErr};
ghost use Rattle.std.specs.Io.{StartsWith};
ghost use Rattle.std.specs.List.{flat_map};
ghost use Rattle.cow_model.specs.Printed as spec;
ghost use Rattle.cow_print.specs.Shown.{bracketed};

use cow_model::NoMemory;

/// What has a printed form.
pub trait Printed {
    ghost form: { Self → List ℕ };

    /// Appends the printed form. Want of memory leaves a part of it.
    fn put(&self, text: &mut Vec<u8>) -> Result<(), NoMemory>
        ensures ok { OnOk result (text.new.items ≡ text.old.items ++ form self.now) }
        ensures front { StartsWith text.new.items text.old.items };
}

/// Takes back what was appended behind the first `before` bytes, where it isn't whole for want of memory.
pub fn whole_or_none(
    text: &mut Vec<u8>,
    before: usize,
    appended: Result<(), NoMemory>,
) -> Result<(), NoMemory>
    requires { before ≤ length text.old.items }
    ensures same { result ≡ appended }
    ensures ok { OnOk result (text.new.items ≡ text.old.items) }
    ensures err { OnErr result (text.new.items ≡ take before text.old.items) }
{
    if appended.is_err() {
        text.truncate(before);
    }
    appended
}

// Each item behind a comma. Want of memory leaves a part of them.
fn put_others<T: Printed>(text: &mut Vec<u8>, items: &[T]) -> Result<(), NoMemory>
    ensures ok { OnOk result
        (text.new.items ≡ text.old.items ++ flat_map spec.behind_comma (map T.form items.now)) }
    ensures front { StartsWith text.new.items text.old.items }
{
    for item in items {
        text.extend_from_slice(b", ")?;
        item.put(text)?;
    }
    Ok(())
}

// The items with commas between them. Want of memory leaves a part of them.
fn put_separated<T: Printed>(text: &mut Vec<u8>, items: &[T]) -> Result<(), NoMemory>
    ensures ok { OnOk result
        (text.new.items ≡ text.old.items ++ spec.separated (map T.form items.now)) }
    ensures front { StartsWith text.new.items text.old.items }
{
    match items {
        [] => Ok(()),
        [first, others @ ..] => {
            first.put(text)?;
            put_others(text, others)
        }
    }
}

/// Appends the items with commas between them and brackets round them. Linear in the bytes of the forms and
/// in the number of items. Want of memory leaves a part of them.
pub fn put_items<T: Printed>(text: &mut Vec<u8>, items: &[T]) -> Result<(), NoMemory>
    ensures ok { OnOk result (text.new.items ≡ text.old.items ++ bracketed (map T.form items.now)) }
    ensures front { StartsWith text.new.items text.old.items }
{
    text.extend_from_slice(b"[")?;
    put_separated(text, items)?;
    text.extend_from_slice(b"]")?;
    Ok(())
}
