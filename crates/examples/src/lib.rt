// The worked examples of 01 are specifications only: see specs/.
