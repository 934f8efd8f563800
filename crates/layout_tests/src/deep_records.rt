// Records that are deeper and longer than one of a line: they are refused and dropped without a long stack or many steps.
use crate::tables::field;
use record_dim::{BadRecord, Dim, FieldList, LeafType, MakeSchema, Schema};
use std::alloc::Global;
use std::test::Fail;

fn array(alloc: Global, len: u32, element: Dim) -> Result<Dim, Fail> {
    let element = Box::new(alloc, element)?;
    Ok(Dim::Array { len, element })
}

// A record that nests `records` deep, and in it an array that nests `arrays` deep, each of `len` elements.
fn deep(alloc: Global, records: u32, arrays: u32, len: u32) -> Result<FieldList, Fail> {
    let mut dim = Dim::Leaf(LeafType::U8);
    for _array in 0..arrays {
        dim = array(alloc, len, dim)?;
    }
    for _record in 1..records {
        dim = Dim::Fields(field(alloc, "a", dim, FieldList::End)?);
    }
    field(alloc, "a", dim, FieldList::End)
}

// 100,000 truth values that are named by their numbers, and then one of this name.
fn many(alloc: Global, name: &str) -> Result<FieldList, Fail> {
    let mut fields = field(alloc, name, Dim::Leaf(LeafType::Bool), FieldList::End)?;
    for number in 0..100_000 {
        let text = format!(in alloc; "f{number}")?;
        fields = field(alloc, text.as_str(), Dim::Leaf(LeafType::Bool), fields)?;
    }
    Ok(fields)
}

// Whether the fields are refused for this fault.
fn is(alloc: Global, fields: FieldList, fault: BadRecord) -> bool {
    Schema::new(alloc, Dim::Fields(fields)).err() == Some(MakeSchema::Bad(fault))
}

#[test]
fn great_records_are_refused(rt: HostRuntime) -> Result<(), Fail> {
    let alloc = rt.alloc();
    for (records, arrays) in [(1000, 0), (1, 50000)] {
        assert!(rt; is(alloc, deep(alloc, records, arrays, 1)?, BadRecord::TooDeep));
    }
    for arrays in [1, 2] {
        let wide = deep(alloc, 1, arrays, u32::MAX)?;
        assert!(rt; is(alloc, wide, BadRecord::TooManyLeaves));
    }
    assert!(rt; is(alloc, many(alloc, "n")?, BadRecord::TooManyLeaves));
    assert!(rt; is(alloc, many(alloc, "f77777")?, BadRecord::Twice));
    Ok(())
}
