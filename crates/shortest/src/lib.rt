// The shortest bytes of file trees, and rewriting a file number by number, are specifications only: see specs/.
