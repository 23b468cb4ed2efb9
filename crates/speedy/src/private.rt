//! What types written by hand are built of: errors, lengths, constants, texts, and room for items.
pub use speedy_base::error::{
    ErrorKind, error_end_of_input, error_end_of_output_buffer, error_endianness_mismatch,
    error_expected_constant, error_input_buffer_is_too_small, error_invalid_enum_variant,
    error_invalid_str_utf8, error_invalid_string_utf8, error_invalid_system_time,
    error_length_is_not_the_same_as_length_attribute, error_not_written_form, error_out_of_memory,
    error_out_of_range_char, error_out_of_range_length, error_output_buffer_is_too_small,
    error_too_big_usize_for_this_architecture, error_unsized, error_zero_non_zero, get_error_kind,
};
pub use speedy_layout::varint::VarInt64;
pub use speedy_layout::view_items::ZeroCopyable;
pub use speedy_read::lengths::{IntoLength, are_lengths_the_same};
pub use speedy_read::magic::read_constant;
pub use speedy_read::prefixed::{
    read_length, read_length_u7, read_length_u8, read_length_u16, read_length_u32, read_length_u64,
    read_length_u64_varint,
};
pub use speedy_read::room::push_in_steps;
pub use speedy_read::utf8::{cow_bytes_to_cow_str, vec_to_string};
pub use speedy_write::prefixed::{
    write_length, write_length_u7, write_length_u8, write_length_u16, write_length_u32,
    write_length_u64, write_length_u64_varint,
};
pub use speedy_write::writable::write_to_stream_and_flush_with_ctx;
