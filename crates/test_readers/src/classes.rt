//! Worked files of classes.

use std::alloc::Global;
use std::test::Fail;
use sut_classes::{Axis, ClassFault, Classes, print_classes, read_classes};

// Whether this is the first fault of a file.
fn fails(alloc: Global, text: &[u8], fault: ClassFault) -> bool {
    match read_classes(alloc, text) {
        Ok(_) => false,
        Err(found) => found == fault,
    }
}

#[test]
fn files_and_their_faults(rt: HostRuntime) {
    let later_kind = b"axis,code,kind\nproduct,T,TR\nmargin,TR,\n";
    assert!(rt; fails(rt.alloc(), later_kind, ClassFault::UnknownKind(2)));
    let later_group = b"axis,code,kind,group\nproduct,X,plain,G\nproduct_group,G,,\n";
    assert!(rt; fails(rt.alloc(), later_group, ClassFault::UnknownGroup(2)));
    let final_of_industry = b"axis,code,kind\nindustry,A,\nfinal,A,\n";
    assert!(rt; fails(rt.alloc(), final_of_industry, ClassFault::Duplicate(3)));
}

#[test]
fn too_many_products(rt: HostRuntime) -> Result<(), Fail> {
    let mut text = String::from_str(rt.alloc(), "axis,code,kind\n")?;
    for n in 0..513u32 {
        writeln!(text, "product,P{n},plain")?;
    }
    assert!(rt;
        fails(
            rt.alloc(),
            text.as_bytes(),
            ClassFault::TooMany(Axis::Product)
        )
    );
    Ok(())
}

fn print_as(alloc: Global, classes: &Classes, want: &[u8]) -> bool {
    match print_classes(alloc, classes) {
        Ok(text) => text.as_slice() == want,
        Err(_) => false,
    }
}

fn copy_prints_as(alloc: Global, classes: &Classes, want: &[u8]) -> bool {
    match classes.copy() {
        Ok(copy) => print_as(alloc, &copy, want),
        Err(_) => false,
    }
}

// Whether the classes of a file, and a copy of them, print as this text.
fn prints(alloc: Global, text: &[u8], want: &[u8]) -> bool {
    match read_classes(alloc, text) {
        Ok(classes) => print_as(alloc, &classes, want) && copy_prints_as(alloc, &classes, want),
        Err(_) => false,
    }
}

#[test]
fn printed_classes(rt: HostRuntime) {
    let text = b"axis,code,kind\nproduct,X,plain\nindustry,A,\nfinal,F,\nitem,V,\n";
    let want = b"axis,code,kind,group\nproduct,X,plain,\nindustry,A,,\nfinal,F,,\nitem,V,,\n";
    assert!(rt; prints(rt.alloc(), text, want));
}
