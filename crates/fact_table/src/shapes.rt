//! What is known of the shape of a result, from what is known of the operands.

mod results;

pub use results::{
    both_shapes, common_shape, one_shape, rank_shape, scalar_shape, selected_shape, shape_literal,
    type_shape,
};
