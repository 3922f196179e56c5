//! Names of files, and patterns of them as `*.c`.

/// Whether the name fits one of these, or the list is empty. In them `*` means any characters and `?` one.
pub(crate) fn is_named(name: &str, wanted: &[&str]) -> bool {
    wanted.is_empty()
        || wanted
            .iter()
            .any(|wanted| is_like(wanted.as_bytes(), name.as_bytes()))
}

/// Where a comparison goes on if it fails: after a `*`, which takes one character more.
#[derive(Clone, Copy)]
struct Star {
    after: usize,
    taken: usize,
}

/// Whether the name is like the wanted one.
fn is_like(wanted: &[u8], name: &[u8]) -> bool {
    let mut at = 0_usize;
    let mut taken = 0_usize;
    let mut star: Option<Star> = None;
    for _ in 0..u64::MAX {
        let sign = wanted.get(at).copied();
        if sign == Some(b'*') {
            at = at.saturating_add(1);
            star = Some(Star { after: at, taken });
            continue;
        }
        let character = name.get(taken).copied();
        if character.is_none() {
            return sign.is_none();
        }
        if sign == Some(b'?') || (sign.is_some() && sign == character) {
            at = at.saturating_add(1);
            taken = taken.saturating_add(1);
            continue;
        }
        // The last star takes one character more.
        let Some(last) = star else {
            return false;
        };
        at = last.after;
        taken = last.taken.saturating_add(1);
        star = Some(Star { after: at, taken });
    }
    false
}
