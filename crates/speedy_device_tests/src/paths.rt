//! Each public name at the path where a caller looks for it. A path that is lost does not compile.
pub mod at_the_root {
    pub use speedy::{
        BigEndian, Buffer, Context, Endianness, Error, FromItems, IsEof, ItemByItem, Layout,
        LendingReader, LittleEndian, Part, PlainContext, ReadFrom, ReadMany, Readable,
        ReadableOwned, Reader, SameKey, StrictBigEndian, StrictLittleEndian, Writable, Writer,
    };
}

pub mod in_endianness {
    pub use speedy::endianness::Endianness;
}

pub mod in_context {
    pub use speedy::context::{
        BigEndian, Context, LittleEndian, PlainContext, StrictBigEndian, StrictLittleEndian,
    };
}

pub mod in_error {
    pub use speedy::error::{
        Error, ErrorKind, IsEof, error_end_of_input, error_end_of_output_buffer,
        error_endianness_mismatch, error_expected_constant, error_input_buffer_is_too_small,
        error_invalid_enum_variant, error_invalid_str_utf8, error_invalid_string_utf8,
        error_invalid_system_time, error_length_is_not_the_same_as_length_attribute,
        error_not_written_form, error_out_of_memory, error_out_of_range_char,
        error_out_of_range_length, error_output_buffer_is_too_small,
        error_too_big_usize_for_this_architecture, error_unsized, error_zero_non_zero,
        get_error_kind,
    };
}

pub mod in_layout {
    pub use speedy::layout::{Layout, SameKey};
}

pub mod in_circular_buffer {
    pub use speedy::circular_buffer::CircularBuffer;
}

pub mod in_device {
    pub use speedy::device::{Counted, Sink, Source, VecSink};
}

pub mod in_reader {
    pub use speedy::reader::{FromItems, LendingReader, Reader};
}

pub mod in_readable {
    pub use speedy::readable::{BufferReader, CopyingBufferReader, Readable, StreamReader};
}

pub mod in_varint {
    pub use speedy::varint::VarInt64;
}

pub mod in_readable_impl {
    pub use speedy::readable_impl::{ArrayView, SliceView, ViewIter, ZeroCopyable};
}

pub mod in_readable_unsized_impl {
    pub use speedy::readable_unsized_impl::{ArrayView, SliceView, ViewIter, ZeroCopyable};
}

pub mod in_writer {
    pub use speedy::writer::Writer;
}

pub mod in_writable {
    pub use speedy::writable::{
        BufferCollector, SizeCalculatorCollector, Writable, WritingCollector,
    };
}

pub mod in_writable_impl {
    pub use speedy::writable_impl::{BufferCollector, SizeCalculatorCollector, WritingCollector};
}

pub mod in_private {
    pub use speedy::private::{
        ErrorKind, IntoLength, VarInt64, ZeroCopyable, are_lengths_the_same, cow_bytes_to_cow_str,
        error_end_of_input, error_end_of_output_buffer, error_endianness_mismatch,
        error_expected_constant, error_input_buffer_is_too_small, error_invalid_enum_variant,
        error_invalid_str_utf8, error_invalid_string_utf8, error_invalid_system_time,
        error_length_is_not_the_same_as_length_attribute, error_not_written_form,
        error_out_of_memory, error_out_of_range_char, error_out_of_range_length,
        error_output_buffer_is_too_small, error_too_big_usize_for_this_architecture, error_unsized,
        error_zero_non_zero, get_error_kind, read_constant, read_length, read_length_u7,
        read_length_u8, read_length_u16, read_length_u32, read_length_u64, read_length_u64_varint,
        vec_to_string, write_length, write_length_u7, write_length_u8, write_length_u16,
        write_length_u32, write_length_u64, write_length_u64_varint,
        write_to_stream_and_flush_with_ctx,
    };
}

pub mod in_ext {
    pub use speedy::ext::{IndexMap, IndexSet, SmallVec, Uuid};
}
