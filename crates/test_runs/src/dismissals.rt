//! Reviewers with one label, the first of which is dismissed first.

ghost use Rattle.std.specs.Prelude.{◌≡◌, All};

use std::alloc::Global;
use std::process::Abort;
use std::test::Fail;
use sut_review::{FarFrom, Panel, Reviewer};

/// The text of a panel whose first reviewer with this label was dismissed, if one stands with it.
fn text_without_first(
    alloc: Global,
    label: &[u8],
    list: Vec<Box<dyn Reviewer>>,
) -> Result<Vec<u8>, Fail>
    requires { All (λ b. marked b ≡ 0) list.items }
{
    let mut panel = match Panel::new(alloc, list) {
        Ok(panel) => panel,
        Err(_) => return Err("a panel".into()),
    };
    let is_found = match panel.standing(label) {
        Some(place) => panel.dismiss(place) && !panel.dismiss(place),
        None => true,
    };
    match panel.text(alloc) {
        Ok(text) if is_found => Ok(text),
        _ => Err("no text, or a place where none stood".into()),
    }
}

/// That text for two reviewers with one label.
fn text_of_two(alloc: Global, label: &[u8]) -> Result<Vec<u8>, Fail> {
    let mut list: Vec<Box<dyn Reviewer>> = Vec::new(alloc);
    list.push(Box::new(alloc, FarFrom::new(1))?)?;
    list.push(Box::new(alloc, FarFrom::new(2))?)?;
    text_without_first(alloc, label, list)
}

#[test]
fn first_with_the_label(rt: HostRuntime) -> Result<(), Fail> {
    for (label, want) in [
        (
            b"far_from".as_slice(),
            "label,seen,tally,standing\nfar_from,0,0,no\nfar_from,0,0,yes\n",
        ),
        (
            b"at_bound".as_slice(),
            "label,seen,tally,standing\nfar_from,0,0,yes\nfar_from,0,0,yes\n",
        ),
    ] {
        let text = text_of_two(rt.alloc(), label)?;
        assert!(rt; text.as_slice() == want.as_bytes(), "{want}");
    }
    Ok(())
}
