//! The law on tuples of one to 12. `x generate` writes this file: change its template in tools/data/by_count.
use crate::uparse::uParse;

/// A tuple holds no memory if its fields hold none.
pub fn tuples_hold_no_memory<
    Alloc: Copy,
    A: uParse<Alloc>,
    B: uParse<Alloc>,
    C: uParse<Alloc>,
    D: uParse<Alloc>,
    E: uParse<Alloc>,
    F: uParse<Alloc>,
    G: uParse<Alloc>,
    H: uParse<Alloc>,
    I: uParse<Alloc>,
    J: uParse<Alloc>,
    K: uParse<Alloc>,
    L: uParse<Alloc>,
>()
    ensures of_one { A.holds_no_memory → ⟦<(A,) as uParse<Alloc>>⟧.holds_no_memory }
    ensures of_two { A.holds_no_memory → B.holds_no_memory →
        ⟦<(A, B) as uParse<Alloc>>⟧.holds_no_memory }
    ensures of_three { A.holds_no_memory → B.holds_no_memory → C.holds_no_memory →
        ⟦<(A, B, C) as uParse<Alloc>>⟧.holds_no_memory }
    ensures of_four { A.holds_no_memory → B.holds_no_memory → C.holds_no_memory →
        D.holds_no_memory → ⟦<(A, B, C, D) as uParse<Alloc>>⟧.holds_no_memory }
    ensures of_five { A.holds_no_memory → B.holds_no_memory → C.holds_no_memory →
        D.holds_no_memory → E.holds_no_memory →
        ⟦<(A, B, C, D, E) as uParse<Alloc>>⟧.holds_no_memory }
    ensures of_six { A.holds_no_memory → B.holds_no_memory → C.holds_no_memory → D.holds_no_memory →
        E.holds_no_memory → F.holds_no_memory →
        ⟦<(A, B, C, D, E, F) as uParse<Alloc>>⟧.holds_no_memory }
    ensures of_seven { A.holds_no_memory → B.holds_no_memory → C.holds_no_memory →
        D.holds_no_memory → E.holds_no_memory → F.holds_no_memory → G.holds_no_memory →
        ⟦<(A, B, C, D, E, F, G) as uParse<Alloc>>⟧.holds_no_memory }
    ensures of_eight { A.holds_no_memory → B.holds_no_memory → C.holds_no_memory →
        D.holds_no_memory → E.holds_no_memory → F.holds_no_memory → G.holds_no_memory →
        H.holds_no_memory → ⟦<(A, B, C, D, E, F, G, H) as uParse<Alloc>>⟧.holds_no_memory }
    ensures of_nine { A.holds_no_memory → B.holds_no_memory → C.holds_no_memory →
        D.holds_no_memory → E.holds_no_memory → F.holds_no_memory → G.holds_no_memory →
        H.holds_no_memory → I.holds_no_memory →
        ⟦<(A, B, C, D, E, F, G, H, I) as uParse<Alloc>>⟧.holds_no_memory }
    ensures of_ten { A.holds_no_memory → B.holds_no_memory → C.holds_no_memory → D.holds_no_memory →
        E.holds_no_memory → F.holds_no_memory → G.holds_no_memory → H.holds_no_memory →
        I.holds_no_memory → J.holds_no_memory →
        ⟦<(A, B, C, D, E, F, G, H, I, J) as uParse<Alloc>>⟧.holds_no_memory }
    ensures of_eleven { A.holds_no_memory → B.holds_no_memory → C.holds_no_memory →
        D.holds_no_memory → E.holds_no_memory → F.holds_no_memory → G.holds_no_memory →
        H.holds_no_memory → I.holds_no_memory → J.holds_no_memory → K.holds_no_memory →
        ⟦<(A, B, C, D, E, F, G, H, I, J, K) as uParse<Alloc>>⟧.holds_no_memory }
    ensures of_twelve { A.holds_no_memory → B.holds_no_memory → C.holds_no_memory →
        D.holds_no_memory → E.holds_no_memory → F.holds_no_memory → G.holds_no_memory →
        H.holds_no_memory → I.holds_no_memory → J.holds_no_memory → K.holds_no_memory →
        L.holds_no_memory →
        ⟦<(A, B, C, D, E, F, G, H, I, J, K, L) as uParse<Alloc>>⟧.holds_no_memory }
{}
