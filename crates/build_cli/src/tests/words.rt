use super::words_for;
use crate::names_of;
use std::test::Fail;

#[test]
fn words_name_files(rt: HostRuntime) -> Result<(), Fail> {
    let alloc = rt.alloc();
    let cases: [&[&str]; 12] = [
        &[],
        &["nodes", "amenity", "e"],
        &["nodes", "amenity", "e", "a", "b"],
        &["nodes", "", "e", "a"],
        &["nodes", "--lanes", "e", "a"],
        &["rehearse", "p", "e", "a"],
        &["--help", "amenity", "e", "a"],
        &["build", "p", "e", "--lanes"],
        &["check", "--lanes"],
        &["check", "a", "b"],
        &["show", "a", "27", "0", "0"],
        &["show", "a", "1", "+1", "0"],
    ];
    for case in cases {
        let mut words = Vec::new(alloc);
        for word in case {
            words.push(String::from_str(alloc, word)?)?;
        }
        assert!(rt; names_of(alloc, &words)?.is_none(), "{case:?}");
    }
    let words = words_for(alloc, "build", "p")?;
    match names_of(alloc, &words)? {
        None => assert!(rt; false, "a command"),
        Some(names) => {
            assert!(rt; names.profile.as_str() == "p" && names.output.as_str() == "a");
            for reader in names.readers.as_slice() {
                assert!(rt; reader.as_str() == "e");
            }
            assert!(rt; names.readers.as_slice().len() == 1);
        }
    }
    Ok(())
}
