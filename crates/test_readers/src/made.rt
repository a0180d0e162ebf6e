//! Made years: the smallest one whole, and the sizes.

use std::test::Fail;
use sut_generate::{GenerateFault, generate, is_size};

const SETTINGS: &[u8] = b"scheme = \"flat\"\n";

const CLASSES: &[u8] =
    b"axis,code,kind\nmargin,T,\nproduct,P1,T\nindustry,I1,\nfinal,F1,\nfinal,F2,\nfinal,F3,\nitem,V1,\ntax,X,\n";

const SOURCE: &[u8] =
    b"kind,a,b,c,target,grade,lower,upper\nmake,P1,I1,,8838,,,\nimport,P1,,,758,,,\nbasic,P1,I1,,113,,,\nbasic,P1,F1,,1515,,,\nbasic,P1,F2,,1051,,,\nbasic,P1,F3,,1627,,,\ntax,X,P1,F1,10,,,\nservice,P1,T,,,,0,1000000000000\nadded,V1,I1,,,,-1000000000000,1000000000000\n";

#[test]
fn the_smallest_year(rt: HostRuntime) -> Result<(), Fail> {
    let made = generate(rt.alloc(), 1, 1, 1)?;
    assert_eq!(rt; made.settings.as_slice(), SETTINGS);
    assert_eq!(rt; made.classes.as_slice(), CLASSES);
    assert_eq!(rt; made.source.as_slice(), SOURCE);
    Ok(())
}

/// How many lines a text has.
fn lines(text: &[u8]) -> usize {
    text.iter().filter(|b| **b == b'\n').count()
}

/// A seed, products and industries, and the rows.
type SizeCase = (u32, u32, u32, usize);

const MADE: [SizeCase; 3] = [
    (2, 3, 2, 29),
    (0, 512, 248, 130808),
    (2147483647, 497, 256, 130967),
];

#[test]
fn sizes_made(rt: HostRuntime) -> Result<(), Fail> {
    for (seed, products, industries, rows) in MADE {
        let made = generate(rt.alloc(), seed, products, industries)?;
        assert_eq!(rt; lines(made.source.as_slice()), rows + 1);
    }
    Ok(())
}

const REFUSED: [(u32, u32, u32); 6] = [
    (1, 0, 1),
    (1, 1, 0),
    (2147483648, 1, 1),
    (1, 512, 249),
    (1, 513, 1),
    (1, 1, 257),
];

#[test]
fn sizes_refused(rt: HostRuntime) {
    for (seed, products, industries) in REFUSED {
        assert!(rt; !is_size(seed, products, industries));
        assert_eq!(rt;
            generate(rt.alloc(), seed, products, industries).err(),
            Some(GenerateFault::BadSize)
        );
    }
}
