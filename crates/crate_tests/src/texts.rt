//! Texts of small programs.

/// A row that is copied.
pub const COPIED_ROW: &[u8] =
    b"#pragma scop\nfor (i = 0; i < N; i++) A[i] = B[i];\n#pragma endscop\n";

/// The matrix product.
pub const PRODUCT: &[u8] =
    b"#pragma scop\nfor (i = 0; i < N; i++) for (j = 0; j < N; j++) for (k = 0; k < N; k++) C[i][j] = C[i][j] + A[i][k] * B[k][j];\n#pragma endscop\n";
