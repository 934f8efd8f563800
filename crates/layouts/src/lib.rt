//! What a program over views names, from one crate: records, extents, layouts, views, copies and kernels, and the words of their contracts
#![tactic(auto)]

pub use extents::{BadExtents, ExtentWord, Extents, Order, Shape, Span, Window};
pub use lane_kernels::{
    Compare, Kernel, KernelFault, Reduction, reduce_leaf, run_lanes, run_plain,
};
pub use layout_copy::{CopyFault, copy, copy_self};
pub use map_expr::{BadMapping, FieldWidth, MapExpr, MapExprList, WidthList};
pub use places::{AosForm, SoaForm};
pub use record_dim::{
    BadRecord, Dim, Field, FieldList, LeafType, MakeSchema, Name, Path, PathStep, Schema, Steps,
};
pub use views::{LaneFault, MakeView, RowRef, StoreFault, StoreMode, View, bytes_for};
