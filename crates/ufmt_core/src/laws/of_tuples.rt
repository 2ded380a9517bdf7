//! The law on tuples of one to twelve. `x generate` writes this file: change its template in tools/data/by_count.
ghost use Rattle.std.specs.Prelude.{[], ◌∷◌, ◌≡◌};
ghost use Rattle.ufmt_core.specs.ValueDocuments.{named_tuple};

use crate::uDebug;

/// The document of a tuple is a tuple without a name, with its fields in order.
pub fn documents_of_tuples<
    A: uDebug,
    B: uDebug,
    C: uDebug,
    D: uDebug,
    E: uDebug,
    F: uDebug,
    G: uDebug,
    H: uDebug,
    I: uDebug,
    J: uDebug,
    K: uDebug,
    L: uDebug,
>()
    ensures of_one { ⟦<(A,) as uDebug>⟧.document ≡ (λ t. named_tuple "" (A.document t.0 ∷ [])) }
    ensures of_two { ⟦<(A, B) as uDebug>⟧.document ≡ (λ t. named_tuple "" (A.document t.0
        ∷ B.document t.1 ∷ [])) }
    ensures of_three { ⟦<(A, B, C) as uDebug>⟧.document ≡ (λ t. named_tuple "" (A.document t.0
        ∷ B.document t.1 ∷ C.document t.2 ∷ [])) }
    ensures of_four { ⟦<(A, B, C, D) as uDebug>⟧.document ≡ (λ t. named_tuple "" (A.document t.0
        ∷ B.document t.1 ∷ C.document t.2 ∷ D.document t.3 ∷ [])) }
    ensures of_five { ⟦<(A, B, C, D, E) as uDebug>⟧.document ≡ (λ t. named_tuple "" (A.document t.0
        ∷ B.document t.1 ∷ C.document t.2 ∷ D.document t.3 ∷ E.document t.4 ∷ [])) }
    ensures of_six { ⟦<(A, B, C, D, E, F) as uDebug>⟧.document ≡
        (λ t. named_tuple "" (A.document t.0 ∷ B.document t.1 ∷ C.document t.2 ∷ D.document t.3
        ∷ E.document t.4 ∷ F.document t.5 ∷ [])) }
    ensures of_seven { ⟦<(A, B, C, D, E, F, G) as uDebug>⟧.document ≡
        (λ t. named_tuple "" (A.document t.0 ∷ B.document t.1 ∷ C.document t.2 ∷ D.document t.3
        ∷ E.document t.4 ∷ F.document t.5 ∷ G.document t.6 ∷ [])) }
    ensures of_eight { ⟦<(A, B, C, D, E, F, G, H) as uDebug>⟧.document ≡
        (λ t. named_tuple "" (A.document t.0 ∷ B.document t.1 ∷ C.document t.2 ∷ D.document t.3
        ∷ E.document t.4 ∷ F.document t.5 ∷ G.document t.6 ∷ H.document t.7 ∷ [])) }
    ensures of_nine { ⟦<(A, B, C, D, E, F, G, H, I) as uDebug>⟧.document ≡
        (λ t. named_tuple "" (A.document t.0 ∷ B.document t.1 ∷ C.document t.2 ∷ D.document t.3
        ∷ E.document t.4 ∷ F.document t.5 ∷ G.document t.6 ∷ H.document t.7 ∷ I.document t.8
        ∷ [])) }
    ensures of_ten { ⟦<(A, B, C, D, E, F, G, H, I, J) as uDebug>⟧.document ≡
        (λ t. named_tuple "" (A.document t.0 ∷ B.document t.1 ∷ C.document t.2 ∷ D.document t.3
        ∷ E.document t.4 ∷ F.document t.5 ∷ G.document t.6 ∷ H.document t.7 ∷ I.document t.8
        ∷ J.document t.9 ∷ [])) }
    ensures of_eleven { ⟦<(A, B, C, D, E, F, G, H, I, J, K) as uDebug>⟧.document ≡
        (λ t. named_tuple "" (A.document t.0 ∷ B.document t.1 ∷ C.document t.2 ∷ D.document t.3
        ∷ E.document t.4 ∷ F.document t.5 ∷ G.document t.6 ∷ H.document t.7 ∷ I.document t.8
        ∷ J.document t.9 ∷ K.document t.10 ∷ [])) }
    ensures of_twelve { ⟦<(A, B, C, D, E, F, G, H, I, J, K, L) as uDebug>⟧.document ≡
        (λ t. named_tuple "" (A.document t.0 ∷ B.document t.1 ∷ C.document t.2 ∷ D.document t.3
        ∷ E.document t.4 ∷ F.document t.5 ∷ G.document t.6 ∷ H.document t.7 ∷ I.document t.8
        ∷ J.document t.9 ∷ K.document t.10 ∷ L.document t.11 ∷ [])) }
{}
