//! The names that objects get in a start file. No clause says which: what is written is read back and compared.
use mls_lines::Names;
use mls_tables::{MAX_OBJECTS, ObjectId};
use mls_wording::push_number;
use std::alloc::{AllocError, Global};

/// Of each object number without a name in a start, the number that its new name has after an `o`.
#[derive(Drop)]
pub(crate) struct NewNames {
    numbers: Vec<u16>,
}

/// Whether a number is among those that are used.
fn is_used(used: &[u16], m: u16) -> bool {
    used.iter().any(|x| *x == m)
}

/// Whether a start has the name of a number for an object.
fn is_name(alloc: Global, names: &Names, m: u16) -> Result<bool, AllocError> {
    let mut name = String::new(alloc);
    push_numbered(&mut name, m)?;
    Ok(names.object(name.as_str()).is_some())
}

/// The first number from this one on whose name is neither a start's nor used.
fn first_free(alloc: Global, names: &Names, used: &[u16], from: u16) -> Result<u16, AllocError> {
    for m in from..u16::MAX {
        if !is_used(used, m) && !is_name(alloc, names, m)? {
            return Ok(m);
        }
    }
    Ok(u16::MAX)
}

/// Appends the name of a number.
fn push_numbered(text: &mut String, m: u16) -> Result<(), AllocError> {
    text.push_str("o")?;
    push_number(text, u64::from(m))?;
    Ok(())
}

impl NewNames {
    /// The new names of the objects of an order.
    pub(crate) fn new(
        alloc: Global,
        names: &Names,
        order: &[ObjectId],
    ) -> Result<NewNames, AllocError> {
        let mut numbers = vec![in alloc; 0; MAX_OBJECTS as usize]?;
        let mut used = Vec::new(alloc);
        for o in order {
            if names.object_name(*o).is_some() {
                continue;
            }
            let m = first_free(alloc, names, &used, o.number())?;
            used.push(m)?;
            if let Some(number) = numbers.get_mut(o.number() as usize) {
                *number = m;
            }
        }
        Ok(NewNames { numbers })
    }

    /// Appends the name of an object: the one that the start has for its number, or else a new one.
    pub(crate) fn push(
        &self,
        text: &mut String,
        names: &Names,
        o: ObjectId,
    ) -> Result<(), AllocError> {
        match names.object_name(o) {
            Some(name) => text.push_str(name),
            None => match self.numbers.get(o.number() as usize) {
                Some(m) => push_numbered(text, *m),
                None => push_numbered(text, o.number()),
            },
        }
    }
}
