//! The layout of tuples: the parts in order.
//!
//! What is seen of more than two parts is the first part and the tuple of the others.
ghost use Rattle.speedy_layout.specs.Codecs.{pair_codec, unit_codec};

use crate::layout::Layout;

impl Layout for () {
    ghost seen = { λ x. x };

    ghost layout = { unit_codec };
}

impl<T0: Layout> Layout for (T0,) {
    ghost Seen = { T0.Seen };

    ghost seen = { λ t. T0.seen t.0 };

    ghost layout = { T0.layout };
}

impl<T0: Layout, T1: Layout> Layout for (T0, T1) {
    ghost Seen = { T0.Seen × T1.Seen };

    ghost seen = { λ t. (T0.seen t.0, T1.seen t.1) };

    ghost layout = { pair_codec T0.layout T1.layout };
}

impl<T0: Layout, T1: Layout, T2: Layout> Layout for (T0, T1, T2) {
    ghost Seen = { ⟦<(T0, (T1, T2)) as Layout>⟧.Seen };

    ghost seen = { λ t. ⟦<(T0, (T1, T2)) as Layout>⟧.seen (t.0, (t.1, t.2)) };

    ghost layout = { ⟦<(T0, (T1, T2)) as Layout>⟧.layout };
}

impl<T0: Layout, T1: Layout, T2: Layout, T3: Layout> Layout for (T0, T1, T2, T3) {
    ghost Seen = { ⟦<(T0, (T1, T2, T3)) as Layout>⟧.Seen };

    ghost seen = { λ t. ⟦<(T0, (T1, T2, T3)) as Layout>⟧.seen (t.0, (t.1, t.2, t.3)) };

    ghost layout = { ⟦<(T0, (T1, T2, T3)) as Layout>⟧.layout };
}

impl<T0: Layout, T1: Layout, T2: Layout, T3: Layout, T4: Layout> Layout for (T0, T1, T2, T3, T4) {
    ghost Seen = { ⟦<(T0, (T1, T2, T3, T4)) as Layout>⟧.Seen };

    ghost seen = { λ t. ⟦<(T0, (T1, T2, T3, T4)) as Layout>⟧.seen (t.0, (t.1, t.2, t.3, t.4)) };

    ghost layout = { ⟦<(T0, (T1, T2, T3, T4)) as Layout>⟧.layout };
}

impl<T0: Layout, T1: Layout, T2: Layout, T3: Layout, T4: Layout, T5: Layout> Layout
    for (T0, T1, T2, T3, T4, T5) {
    ghost Seen = { ⟦<(T0, (T1, T2, T3, T4, T5)) as Layout>⟧.Seen };

    ghost seen = { λ t. ⟦<(T0, (T1, T2, T3, T4, T5)) as Layout>⟧.seen (t.0, (t.1, t.2, t.3, t.4, t.5)) };

    ghost layout = { ⟦<(T0, (T1, T2, T3, T4, T5)) as Layout>⟧.layout };
}

impl<T0: Layout, T1: Layout, T2: Layout, T3: Layout, T4: Layout, T5: Layout, T6: Layout> Layout
    for (T0, T1, T2, T3, T4, T5, T6) {
    ghost Seen = { ⟦<(T0, (T1, T2, T3, T4, T5, T6)) as Layout>⟧.Seen };

    ghost seen = { λ t. ⟦<(T0, (T1, T2, T3, T4, T5, T6)) as Layout>⟧.seen (t.0, (t.1, t.2, t.3, t.4, t.5, t.6)) };

    ghost layout = { ⟦<(T0, (T1, T2, T3, T4, T5, T6)) as Layout>⟧.layout };
}

impl<
    T0: Layout,
    T1: Layout,
    T2: Layout,
    T3: Layout,
    T4: Layout,
    T5: Layout,
    T6: Layout,
    T7: Layout,
> Layout for (T0, T1, T2, T3, T4, T5, T6, T7) {
    ghost Seen = { ⟦<(T0, (T1, T2, T3, T4, T5, T6, T7)) as Layout>⟧.Seen };

    ghost seen = { λ t.
        ⟦<(T0, (T1, T2, T3, T4, T5, T6, T7)) as Layout>⟧.seen (t.0, (t.1, t.2, t.3, t.4, t.5, t.6, t.7)) };

    ghost layout = { ⟦<(T0, (T1, T2, T3, T4, T5, T6, T7)) as Layout>⟧.layout };
}

impl<
    T0: Layout,
    T1: Layout,
    T2: Layout,
    T3: Layout,
    T4: Layout,
    T5: Layout,
    T6: Layout,
    T7: Layout,
    T8: Layout,
> Layout for (T0, T1, T2, T3, T4, T5, T6, T7, T8) {
    ghost Seen = { ⟦<(T0, (T1, T2, T3, T4, T5, T6, T7, T8)) as Layout>⟧.Seen };

    ghost seen = { λ t.
        ⟦<(T0, (T1, T2, T3, T4, T5, T6, T7, T8)) as Layout>⟧.seen (t.0, (t.1, t.2, t.3, t.4, t.5, t.6, t.7, t.8)) };

    ghost layout = { ⟦<(T0, (T1, T2, T3, T4, T5, T6, T7, T8)) as Layout>⟧.layout };
}

impl<
    T0: Layout,
    T1: Layout,
    T2: Layout,
    T3: Layout,
    T4: Layout,
    T5: Layout,
    T6: Layout,
    T7: Layout,
    T8: Layout,
    T9: Layout,
> Layout for (T0, T1, T2, T3, T4, T5, T6, T7, T8, T9) {
    ghost Seen = { ⟦<(T0, (T1, T2, T3, T4, T5, T6, T7, T8, T9)) as Layout>⟧.Seen };

    ghost seen = { λ t. ⟦<(T0, (T1, T2, T3, T4, T5, T6, T7, T8, T9)) as Layout>⟧.seen
        (t.0, (t.1, t.2, t.3, t.4, t.5, t.6, t.7, t.8, t.9)) };

    ghost layout = { ⟦<(T0, (T1, T2, T3, T4, T5, T6, T7, T8, T9)) as Layout>⟧.layout };
}

impl<
    T0: Layout,
    T1: Layout,
    T2: Layout,
    T3: Layout,
    T4: Layout,
    T5: Layout,
    T6: Layout,
    T7: Layout,
    T8: Layout,
    T9: Layout,
    T10: Layout,
> Layout for (T0, T1, T2, T3, T4, T5, T6, T7, T8, T9, T10) {
    ghost Seen = { ⟦<(T0, (T1, T2, T3, T4, T5, T6, T7, T8, T9, T10)) as Layout>⟧.Seen };

    ghost seen = { λ t. ⟦<(T0, (T1, T2, T3, T4, T5, T6, T7, T8, T9, T10)) as Layout>⟧.seen
        (t.0, (t.1, t.2, t.3, t.4, t.5, t.6, t.7, t.8, t.9, t.10)) };

    ghost layout = { ⟦<(T0, (T1, T2, T3, T4, T5, T6, T7, T8, T9, T10)) as Layout>⟧.layout };
}
